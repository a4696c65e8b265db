// The missing list number by number, for the benchmark, which is in another language: a static library of it (`rt lib` here). A crate
// can't be both a library and a static library, so this one exports the function of `missing_plain`, with its promise.

#![tactic(auto)]

ghost use Rattle.base.specs.Put.{Run};
ghost use Rattle.window.specs.Missing as Missing;

use window::ReliableWindow;

#[unsafe(no_mangle)]
pub extern "C" fn poghduka_missing_plain(w: ReliableWindow, list: &mut [u32]) -> usize
    ensures { Run 0 (Missing.missing w) list.old result list.new }
{
    missing_plain::poghduka_missing_plain(w, list)
}
