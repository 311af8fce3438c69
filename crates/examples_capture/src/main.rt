//! Hears a capture, the bytes of a line, on standard input: a line for each frame, and what is heard of the bytes after the last one.
#![tactic(auto)]

use bsc_codes::Block;
use bsc_frame::{Fed, Frame, Listener};
use std::io::{self, Read};

fn main(rt: HostRuntime) -> io::Result<()> {
    let mut capture = Vec::new(rt.alloc());
    rt.stdin().read_to_end(&mut capture)?;
    let mut listener = Listener::new();
    let mut rest = capture.as_slice();
    // A frame ends with a byte, so there are no more frames than bytes.
    for _ in 0..capture.len() {
        let Fed { used, frame } = listener.feed(rest);
        rest = &rest[used..];
        match frame {
            Some(Frame::Block(Block { text, closing, .. })) => {
                println!(rt; "block of {} bytes, {closing:?}", text.len())?;
            }
            Some(frame) => println!(rt; "{frame:?}")?,
            None => break,
        }
    }
    println!(rt; "then {:?}", listener.quiet())
}
