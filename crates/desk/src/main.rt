// The release desk's program: decides request.bin under policy.bin and prints one line.
#![tactic(auto)]

ghost use Rattle.std.specs.Prelude.{◌≡◌, ◌≤◌, length, take, replicate, true};
ghost use Rattle.model.specs.Decision.{lent, decision};
ghost use Rattle.model.specs.Inputs.{without_entries};
ghost use Rattle.outcome.specs.Line.{line_of};
ghost use Rattle.desk.specs.Counts.{IsPrefixLen};

use std::io::Read;
use std::rt::Files;
use std::{fs, io};

// "lends 65,536 bytes for facts and 1,024 for answers"
const FACTS: usize = 65536;

const ANSWERS: usize = 1024;

// ---- files: no contract can say what is read

// The first bytes of an open file, as many as fit; none if a read fails, be it halfway: a file that cannot be read counts as empty, so no Result.
fn read_whole(file: &mut impl Read, to: &mut [u8]) -> usize
    ensures { IsPrefixLen result to.new }
{
    let mut n = 0;
    // no range: a read says how far it came
    while n < to.len() {
        match file.read(&mut to[n..]) {
            Ok(0) => return n,
            Ok(more) => n += more,
            Err(_) => return 0,
        }
    }
    n
}

// "reads the first 65,536 bytes at most .. a file that cannot be read counts as empty"
fn load(files: &impl Files, path: &str, to: &mut [u8]) -> usize
    ensures { IsPrefixLen result to.new }
{
    match fs::open(files, path) {
        Ok(mut file) => read_whole(&mut file, to),
        Err(_) => 0,
    }
}

// ---- the line

// Decides, and writes the line to the front of `text`: the model's line for the model's decision with so many bytes of 0 lent.
fn answer(policy: &[u8], request: &[u8], text: &mut [u8; 96]) -> usize
    ensures prefix_len { IsPrefixLen result text.new }
    ensures text_after { take result text.new
        ≡ line_of (decision (lent policy.now request.now without_entries without_entries (replicate 65536 0) (replicate 1024 0))) }
{
    // "document 01's program lends such slices without entries"
    let none = [1u8, 0, 0, 0, 2, 0, 0];
    let mut facts = [0u8; FACTS];
    let mut answers = [0u8; ANSWERS];
    let o = engine::decide(policy, request, &none, &none, &mut facts, &mut answers);
    outcome::line(o, text)
}

fn main(rt: HostRuntime) -> io::Result<()> {
    let mut policy = [0u8; 65536];
    let mut request = [0u8; 65536];
    let p = load(&rt, "policy.bin", &mut policy);
    let r = load(&rt, "request.bin", &mut request);
    let mut text = [0u8; 96];
    let n = answer(&policy[..p], &request[..r], &mut text);
    rt.write_all(&text[..n])
}

#[cfg(test)]
mod tests {
    use super::*;
    use std::io::ErrorKind;

    // A file of `left` bytes of 7, which gives 3 at most in one read; behind them a read fails, or says that this is the end.
    #[derive(Drop)]
    struct Scripted {
        left: usize,
        fails: bool,
    }

    impl Read for Scripted {
        fn read(&mut self, buf: &mut [u8]) -> io::Result<usize> {
            if self.left == 0 && self.fails {
                return Err(io::Error::from(ErrorKind::Other));
            }
            let n = buf.len().min(self.left).min(3);
            for byte in buf[..n].iter_mut() {
                *byte = 7;
            }
            self.left -= n;
            Ok(n)
        }
    }

    #[test]
    fn a_file_is_read_to_its_end(rt: HostRuntime) {
        let mut to = [0u8; 8];
        let mut file = Scripted {
            left: 5,
            fails: false,
        };
        assert_eq!(rt; read_whole(&mut file, &mut to), 5);
        assert_eq!(rt; to, [7, 7, 7, 7, 7, 0, 0, 0]);
    }

    #[test]
    fn a_file_that_fails_halfway_counts_as_empty(rt: HostRuntime) {
        let mut to = [0u8; 8];
        let mut file = Scripted {
            left: 5,
            fails: true,
        };
        assert_eq!(rt; read_whole(&mut file, &mut to), 0);
    }

    #[test]
    fn a_longer_file_is_cut(rt: HostRuntime) {
        let mut to = [0u8; 8];
        let mut file = Scripted {
            left: 20,
            fails: true,
        };
        assert_eq!(rt; read_whole(&mut file, &mut to), 8);
    }
}
