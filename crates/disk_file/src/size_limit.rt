//! How far files may be written.

use libc::types::rlimit;

// What getrlimit is asked for the greatest size of a file that is written (setrlimit(2)).
const FILE_SIZE: i32 = 1;

/// The greatest size, in bytes, of a file that this process writes. For a write at it or behind it the system raises a
/// signal, which would end the program.
pub fn file_size_limit() -> u64 {
    let mut limit = rlimit {
        rlim_cur: u64::MAX,
        rlim_max: u64::MAX,
    };
    if libc::getrlimit(FILE_SIZE, &mut limit) != 0 {
        return u64::MAX;
    }
    limit.rlim_cur
}
