//! Laws about the contents of a pool's slots and its history. Each is the contract of a function that does nothing.
ghost use Rattle.pool_agreement.specs.Agreement.{MovesKeepAgreement, CallsKeepAgreement, FirstContentsAgree, MadePoolsAgree, ActivationsAgree, CompletePoolsAgree};

use auth_log::only_up_slots_count;
use pool_history::{new_pools_agree, transitions_keep_agreement};
use rig_disk::Rig;

/// Every move of a pool's slots keeps the agreement of their contents with a history.
pub fn moves_keep_agreement()
    ensures { MovesKeepAgreement }
{
    only_up_slots_count();
    transitions_keep_agreement();
}

/// A call that moves the contents alone keeps the agreement of each image with a history at each of its instants.
pub fn calls_keep_agreement<R: Rig>()
    ensures { CallsKeepAgreement R.clock R.images }
{
    moves_keep_agreement();
}

/// The contents of a new pool agree with the first history.
pub fn first_contents_agree()
    ensures { FirstContentsAgree }
{
    new_pools_agree();
}

/// At each instant of the making of a pool there is none, or one that agrees with the first history.
pub fn made_pools_agree()
    ensures { MadePoolsAgree }
{
    first_contents_agree();
}

/// Contents in which an activation is complete agree also with the history in which its epoch went active.
pub fn activations_agree()
    ensures { ActivationsAgree }
{
    transitions_keep_agreement();
}

/// If a pool is complete in each image of now, and they agree with a history, they agree also with the history in which its epoch
/// is active.
pub fn complete_pools_agree<R: Rig>()
    ensures { CompletePoolsAgree R.clock R.images }
{
    activations_agree();
}
