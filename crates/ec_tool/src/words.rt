//! What the words of the command line ask for.
ghost use Rattle.std.specs.Prelude.{◌≡◌, ◌↔◌, ◌≤◌, ◌∷◌, ℕ, List, IfOk, IfSome, IfNone, IsTrue, codes};
ghost use Rattle.std.specs.List.{All};
ghost use Rattle.ec_words.specs.Numbers.{IsNumberText};
ghost use Rattle.ec_tool.specs.Requests.{Asks};
ghost use Rattle.ec_files.specs.Jobs.{job_of, Job};
ghost use Rattle.ec_tool.specs.Words.{Words, AskCoding, IsParameter, max_size, texts_of};

use crate::request::Request;
use crate::wanted::read_wanted;
use ec_files::Coding;
use ec_words::{NoMemory, read_u64};
use std::alloc::Global;

// The number of bytes of the largest object whose chunk size can be asked for: 1 TiB.
const MAX_SIZE: u64 = 1 << 40;

/// What the words ask for; [`Request::Wrong`] exactly if they are no command.
pub fn requested<'a>(alloc: Global, words: &'a [String]) -> Result<Request<'a>, NoMemory>
    ensures { IfOk result (λ request. Asks words.now request) }
{
    let [command, arguments @ ..] = words else {
        return Ok(Request::Wrong);
    };
    match command.as_str() {
        "test-plugin-exists" => Ok(exists_request(arguments)),
        "validate-profile" => Ok(validate_request(arguments)),
        "calc-chunk-size" => Ok(size_request(arguments)),
        "encode" => encode_request(alloc, arguments),
        "decode" => decode_request(alloc, arguments),
        _ => Ok(Request::Wrong),
    }
}

fn exists_request<'a>(arguments: &'a [String]) -> Request<'a>
    ensures { (words : Words) → texts_of words ≡ codes "test-plugin-exists" ∷ texts_of arguments.now → Asks words result }
{
    match arguments {
        [plugin] => Request::Exists(plugin.as_str()),
        _ => Request::Wrong,
    }
}

fn validate_request<'a>(arguments: &'a [String]) -> Request<'a>
    ensures { (words : Words) → texts_of words ≡ codes "validate-profile" ∷ texts_of arguments.now → Asks words result }
{
    match arguments {
        [profile, parameters @ ..] if are_parameters(parameters) => {
            Request::Validate(profile.as_str(), parameters)
        }
        _ => Request::Wrong,
    }
}

fn are_parameters(words: &[String]) -> bool
    ensures { IsTrue result ↔ All IsParameter (texts_of words.now) }
{
    words.iter().all(|word| is_parameter(word.as_str()))
}

fn is_parameter(text: &str) -> bool
    ensures { IsTrue result ↔ IsParameter text.now }
{
    match text {
        "chunk_count" | "data_chunk_count" | "coding_chunk_count" => true,
        _ => false,
    }
}

fn size_request<'a>(arguments: &'a [String]) -> Request<'a>
    ensures { (words : Words) → texts_of words ≡ codes "calc-chunk-size" ∷ texts_of arguments.now → Asks words result }
{
    let [profile, size] = arguments else {
        return Request::Wrong;
    };
    match read_size(size.as_bytes()) {
        Some(size) => Request::Size(profile.as_str(), size),
        None => Request::Wrong,
    }
}

// The size that a text is; none if it is no number, or too large.
fn read_size(text: &[u8]) -> Option<u64>
    ensures some { IfSome result (λ size. IsNumberText text.now size × (size ≤ max_size)) }
    ensures none { IfNone result ((size : ℕ) → IsNumberText text.now size → size ≤ max_size → ⊥) }
{
    match read_u64(text) {
        Ok(size) if size <= MAX_SIZE => Some(size),
        _ => None,
    }
}

fn encode_request<'a>(alloc: Global, arguments: &'a [String]) -> Result<Request<'a>, NoMemory>
    ensures { IfOk result (λ request. (words : Words)
        → texts_of words ≡ codes "encode" ∷ texts_of arguments.now → Asks words request) }
{
    match read_coding(alloc, arguments)? {
        Some(coding) => Ok(Request::Encode(coding)),
        None => Ok(Request::Wrong),
    }
}

fn decode_request<'a>(alloc: Global, arguments: &'a [String]) -> Result<Request<'a>, NoMemory>
    ensures { IfOk result (λ request. (words : Words)
        → texts_of words ≡ codes "decode" ∷ texts_of arguments.now → Asks words request) }
{
    match read_coding(alloc, arguments)? {
        Some(coding) => Ok(Request::Decode(coding)),
        None => Ok(Request::Wrong),
    }
}

// The job, by the words after `encode` or `decode`; none if they do not have its form.
fn read_coding<'a>(alloc: Global, arguments: &'a [String]) -> Result<Option<Coding<'a>>, NoMemory>
    ensures some { IfOk result (λ answer. IfSome answer (λ coding. (command : List ℕ) (words : Words)
        → texts_of words ≡ command ∷ texts_of arguments.now → AskCoding command words (job_of coding))) }
    ensures none { IfOk result (λ answer. IfNone answer ((command : List ℕ) (words : Words) (job : Job)
        → texts_of words ≡ command ∷ texts_of arguments.now → AskCoding command words job → ⊥)) }
{
    let [profile, unit, wanted, name] = arguments else {
        return Ok(None);
    };
    let Ok(unit) = read_u64(unit.as_bytes()) else {
        return Ok(None);
    };
    let Some(wanted) = read_wanted(alloc, wanted.as_bytes())? else {
        return Ok(None);
    };
    Ok(Some(Coding {
        profile: profile.as_str(),
        unit,
        wanted,
        name: name.as_str(),
    }))
}
