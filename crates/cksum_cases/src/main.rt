//! The checksums of nothing, of the byte 'a', of "123456789" and of 300 zero bytes, one to a line.
#![tactic(auto)]

use cksum::checksum;

fn main(rt: HostRuntime) {
    for text in [b"".as_slice(), b"a", b"123456789", &[0; 300]] {
        // A line that can't be written is passed over: whoever reads the lines compares them.
        let _ = println!(rt; "{}", checksum(text));
    }
}
