//! The memory for an office's file: a fixed number of bytes, whatever size its pages have.
ghost use Rattle.std.specs.Prelude.{◌≡◌, ◌≤◌, ◌/◌, IfOk};
ghost use Rattle.procure_programs.specs.PageSize.{page_size_in};

use office_store::path::Room;
use std::fs;
use std::io::{self, Read};

/// The bytes of the file's pages that stay in memory: 8 MiB. They are taken when the file is opened. A page that isn't in memory costs a read and a digest,
/// which is little compared with a request if pages are small.
pub const MEMORY: usize = 8_388_608;

/// The bytes of pages by which the log grows before they are copied into the file: 4 MiB. Each copy writes a page once, however often the log has it.
pub const LOG: usize = 4_194_304;

/// The page size of a file that doesn't name one.
pub const USUAL_PAGE: usize = 4096;

/// The size of a file's pages, by its first bytes. Two of them name it, the high one first, and 1 means 65,536. It is the usual size if they don't name a page
/// size of SQLite, or if the file ends before them.
pub fn page_size_in(head: &[u8]) -> usize
    ensures value { result ≡ page_size_in head.now }
    ensures low { 512 ≤ result }
{
    if head.len() < 18 {
        return USUAL_PAGE;
    }
    match head[16] as usize * 256 + head[17] as usize {
        1 => 65_536,
        named @ (512 | 1024 | 2048 | 4096 | 8192 | 16_384 | 32_768) => named,
        _ => USUAL_PAGE,
    }
}

/// The number of pages and the number of frames of the log that fit into these bytes.
pub fn room_for(page_size: usize) -> Room
    requires { 512 ≤ page_size }
    ensures pages { result.pages ≡ MEMORY / page_size }
    ensures frames { result.frames ≡ LOG / page_size }
{
    Room {
        pages: MEMORY / page_size,
        frames: LOG / page_size,
    }
}

// The file's first bytes, at most 18. Only a file is read, because a read from a pipe would wait for its writer.
fn read_head(rt: &HostRuntime, path: &str, head: &mut [u8; 18]) -> io::Result<usize>
    ensures { IfOk result (λ read. read ≤ 18) }
{
    if !fs::metadata(rt, path)?.is_file() {
        return Ok(0);
    }
    fs::open(rt, path)?.read(head)
}

/// The page size of the file at a path, or the usual one if it can't be read.
pub fn page_size_at(rt: &HostRuntime, path: &str) -> usize
    ensures { 512 ≤ result }
{
    let mut head = [0; 18];
    match read_head(rt, path, &mut head) {
        Ok(read) => page_size_in(&head[..read]),
        Err(_) => USUAL_PAGE,
    }
}
