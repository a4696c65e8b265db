// The functions of `exports` as C functions: a static library of them links into Rust or C (`rt lib` here). A crate can't be both a library
// and a static library, so each function calls that of `exports`, and makes its promise.

#![tactic(auto)]

ghost use Rattle.std.specs.Prelude.{◌≡◌, length};
ghost use Rattle.base.specs.Put.{Run};
ghost use Rattle.window.specs.Window.{new_window, insert_of};
ghost use Rattle.window.specs.Missing as Missing;
ghost use Rattle.ack.specs.Read.{read_header_of, read_record_of};
ghost use Rattle.ack.specs.Write.{write_list_of, written_of};
ghost use Rattle.exports.specs.Numbers.{insert_told, ack_told, header_told, record_told};

use ack::AckCursor;
use exports::{AckHeaderFound, AckRecordFound, AckWritten, WindowInsert};
use window::ReliableWindow;

#[unsafe(no_mangle)]
pub extern "C" fn poghduka_window_new() -> ReliableWindow
    ensures { result ≡ new_window }
{
    exports::poghduka_window_new()
}

#[unsafe(no_mangle)]
pub extern "C" fn poghduka_window_insert(w: ReliableWindow, n: u32) -> WindowInsert
    ensures { result ≡ insert_told (insert_of w n) }
{
    exports::poghduka_window_insert(w, n)
}

#[unsafe(no_mangle)]
pub extern "C" fn poghduka_window_missing(w: ReliableWindow, list: &mut [u32]) -> usize
    ensures { Run 0 (Missing.missing w) list.old result list.new }
{
    exports::poghduka_window_missing(w, list)
}

#[unsafe(no_mangle)]
pub extern "C" fn poghduka_write_list(out: &mut [u8], nack: bool, numbers: &[u32]) -> AckWritten
    ensures value { result ≡ ack_told (write_list_of (length out.old) nack numbers.now) }
    ensures out_after { out.new ≡ written_of out.old nack numbers.now }
{
    exports::poghduka_write_list(out, nack, numbers)
}

#[unsafe(no_mangle)]
pub extern "C" fn poghduka_read_ack_header(s: &[u8]) -> AckHeaderFound
    ensures { result ≡ header_told (read_header_of s.now) }
{
    exports::poghduka_read_ack_header(s)
}

// The record that the cursor stands at.
#[unsafe(no_mangle)]
pub extern "C" fn poghduka_read_ack_record(s: &[u8], records: AckCursor) -> AckRecordFound
    ensures { result ≡ record_told (read_record_of s.now records) }
{
    exports::poghduka_read_ack_record(s, records)
}
