//! The data chunks that a coding row leaves out.
ghost use Rattle.std.specs.Prelude.{◌↔◌, ◌≤◌, IsTrue};
ghost use Rattle.ec_model.specs.Shec.{IsInWindow, IsLeftOut};

/// Whether column `j` lies in a window.
fn is_in_window(start: u32, end: u32, j: u32) -> bool
    ensures { IsTrue result ↔ IsInWindow start end j }
{
    if start < end {
        start <= j && j < end
    } else {
        end < start && (start <= j || j < end)
    }
}

/// Whether coding row `r` leaves data chunk `j` out.
pub fn is_left_out(k: u8, m: u8, c: u8, r: u8, j: u8) -> bool
    requires k { 1 ≤ k }
    requires m { 1 ≤ m }
    ensures { IsTrue result ↔ IsLeftOut k m c r j }
{
    let (columns, rows) = (u32::from(k), u32::from(m));
    let (first, next) = (u32::from(r), u32::from(c));
    let start = (first + next) * columns / rows % columns;
    let end = first * columns / rows % columns;
    is_in_window(start, end, u32::from(j))
}
