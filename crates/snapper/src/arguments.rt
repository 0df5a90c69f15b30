//! The words of the command line, with room for words of any length.
use snap_base::Memory;
use std::alloc::Global;
use std::env::FillError;
use std::rt::Env;

/// The room, in bytes, that is tried first for an argument.
const FIRST_ROOM: usize = 128;

/// How often the room is doubled: more than any system's limit on arguments asks for.
const DOUBLINGS: u32 = 48;

/// The words of the command line, without the program's name. A word that is not UTF-8 is the empty word.
pub(crate) fn arguments<R: Env + AllocGlobal>(rt: &R) -> Result<Vec<String>, Memory> {
    let alloc = rt.alloc();
    let mut words = Vec::new(alloc);
    for at in 1..usize::MAX {
        let Some(word) = argument(rt, alloc, at)? else {
            break;
        };
        words.push(String::from_utf8(word).unwrap_or(String::new(alloc)))?;
    }
    Ok(words)
}

/// The bytes of the argument at a place, and `None` where there is none. The buffer doubles until they fit.
fn argument<R: Env>(rt: &R, alloc: Global, at: usize) -> Result<Option<Vec<u8>>, Memory> {
    let mut room = FIRST_ROOM;
    for _ in 0..DOUBLINGS {
        let mut buffer = vec![in alloc; 0u8; room]?;
        match rt.arg(at, &mut buffer) {
            Ok(len) => {
                buffer.truncate(len);
                return Ok(Some(buffer));
            }
            Err(FillError::NotPresent) => return Ok(None),
            Err(FillError::TooLong) => room = room.saturating_mul(2),
        }
    }
    Err(Memory)
}
