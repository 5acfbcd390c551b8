// Calls on the register page: the reads and writes of a page block, and the whole page in one line.

use programs::{print, print_field};
use relay::Relay;

// A call on the register page: a read at an offset, or a write of a byte there.
#[derive(Clone, Copy)]
enum PageCall {
    Read(usize),
    Write(usize, u8),
}

impl From<&[u8; 12]> for PageCall {
    fn from(bytes: &[u8; 12]) -> PageCall {
        let offset = programs::u64_at(bytes, 4) as usize;
        if bytes[0] == 0 {
            PageCall::Read(offset)
        } else {
            PageCall::Write(offset, bytes[1])
        }
    }
}

// One read or write.
fn page_call(relay: Relay, call: PageCall) -> Relay {
    match call {
        PageCall::Read(offset) => {
            let done = relay.read(offset);
            match done.answer {
                Ok(b) => print(format_args!("byte {b}\n")),
                Err(r) => programs::print_refused(r),
            }
            done.relay
        }
        PageCall::Write(offset, byte) => {
            let done = relay.write(offset, byte);
            programs::print_done(done.answer, b"written");
            done.relay
        }
    }
}

// A page block: byte 1 tells how many calls it holds. More than 42 have no room in it, and then none is made.
pub fn page_block(start: Relay, block: &[u8; 512]) -> Relay {
    let (calls, _) = block[4..].as_chunks();
    let mut relay = start;
    for call in calls.get(..usize::from(block[1])).unwrap_or_default() {
        relay = page_call(relay, call.into());
    }
    relay
}

// One read, its answer a field of a line.
fn view_byte(relay: Relay, offset: usize) -> Relay {
    let done = relay.read(offset);
    match done.answer {
        Ok(b) => print_field(b),
        Err(r) => print(format_args!(" refused {}", u8::from(r))),
    }
    done.relay
}

// A view block: one read of each byte of the page, all in one line.
pub fn view_block(start: Relay) -> Relay {
    let mut relay = start;
    print("page");
    for offset in 0..64 {
        relay = view_byte(relay, offset);
    }
    programs::end_line();
    relay
}
