// Replays the fixed list, from the standard input: calls with the answers of the crate. Each is given to the library, and
// what it answers and writes is compared. A list that was changed, cut short or is no list fails too.
#![tactic(auto)]

mod call;
mod calls;
mod cut;
mod desk;
mod detect;
mod logs;
mod memory;
mod parts;
mod planes;
mod sample;
mod tally;
mod view;
mod word;

use crate::desk::Desk;
use crate::parts::part;
use std::io;
use std::io::Read;

// The list is read in so many parts at most, each of so many bytes at most.
const PARTS: u64 = 32;

const PART: usize = 65536;

// Reads until the room is full or the input is over: how many bytes there are then. One read may bring fewer than are asked for.
fn read_full(input: &mut impl Read, room: &mut [u8]) -> io::Result<usize> {
    let mut n = 0;
    for _ in 0..PART {
        if room.len() <= n {
            break;
        }
        let more = input.read(&mut room[n..])?;
        if more == 0 {
            break;
        }
        n += more;
    }
    Ok(n)
}

// Part after part; where the input is over, nothing.
fn read_all(rt: &impl Print, input: &mut impl Read, desk: &mut Desk) -> io::Result<()> {
    let mut room = [0u8; PART];
    for _ in 0..PARTS {
        let n = read_full(input, &mut room)?;
        for b in part(&room, n) {
            desk.read(rt, *b)?;
        }
    }
    Ok(())
}

fn main(rt: HostRuntime) -> io::Result<()> {
    let mut desk = Desk::new();
    read_all(&rt, &mut rt.reader(), &mut desk)?;
    desk.finish(&rt)
}
