// Lists a week of records from standard input: document 01, 'The listing program'. The library gives each line's bytes
// and the total.
#![tactic(auto)]

ghost use Rattle.std.specs.Prelude.{◌≡◌, ◌+◌, ◌-◌, ◌≤◌, ◌<◌, cond, drop, slice_range, OnOk};
ghost use Rattle.cluster.specs.View.{Sound};
ghost use Rattle.listing.specs.Buffers.{ListsAll};
ghost use Rattle.plankeeper.specs.declared.TheConstants.{BUFFER};

use cluster::Cluster;
use layout::SHARD_WORDS;
use listing::{Progress, list_records};
use std::io;
use std::io::{Read, Write};
use std::rt::{Stdin, Stdout};

// The bytes of each buffer.
const BUFFER: usize = 65536;

// A record is so many bytes long at most.
const RECORD: usize = 102;

// Where more bytes than these wait, little room is left.
const ROOMY: usize = 61440;

// Standard input, read in large pieces. The bytes from `at` to `end` are not yet listed.
// Stays: `ended` beside the bytes. No field is void where it is set: bytes may be left when the input ends.
#[derive(Drop)]
struct Input {
    stream: Stdin,
    bytes: [u8; BUFFER],
    at: usize,
    end: usize,
    ended: bool,
    ghost unread: { (at ≤ end) × (end ≤ BUFFER) },
}

// Standard output, printed in large pieces. So many bytes from the front wait to be printed.
#[derive(Drop)]
struct Output {
    stream: Stdout,
    bytes: [u8; BUFFER],
    used: usize,
    ghost waiting: { used ≤ BUFFER },
}

impl Input {
    fn new(stream: Stdin) -> Input {
        Input {
            stream,
            bytes: [0; BUFFER],
            at: 0,
            end: 0,
            ended: false,
        }
    }

    // The bytes that are not yet listed.
    fn unread(&self) -> &[u8]
        ensures { result.now ≡ slice_range self.now.bytes self.now.at self.now.end }
    {
        &self.bytes[self.at..self.end]
    }

    // A longest record's bytes are wanted before one is listed, and none at the end of the input.
    fn wanted(&self) -> usize
        ensures { result ≡ cond self.now.ended 0 RECORD }
    {
        if self.ended { 0 } else { RECORD }
    }

    // One read behind the unread bytes, which go to the front. A read that fails is the end of the input.
    fn read_more(&mut self)
        requires { self.old.end - self.old.at < cond self.old.ended 0 RECORD }
        ensures { cond self.new.ended 0 RECORD - (self.new.end - self.new.at)
            < cond self.old.ended 0 RECORD - (self.old.end - self.old.at) }
    {
        self.bytes.copy_within(self.at..self.end, 0);
        self.end -= self.at;
        self.at = 0;
        let count = self.stream.read(&mut self.bytes[self.end..]).unwrap_or(0);
        self.end += count;
        self.ended = count == 0;
    }

    // As many bytes as are wanted.
    // Stays: a while. It counts nothing; it reads until there is enough.
    fn fill(&mut self)
        ensures { cond self.new.ended 0 RECORD ≤ self.new.end - self.new.at }
    {
        while self.end - self.at < self.wanted() {
            self.read_more();
        }
    }

    // So many bytes are listed. Where reading ends with them, no more are wanted, and the rest is left.
    fn listed(&mut self, count: usize, ends: bool)
        requires { self.old.at + count ≤ self.old.end }
    {
        self.at += count;
        if ends {
            self.at = self.end;
            self.ended = true;
        }
    }
}

impl Output {
    fn new(stream: Stdout) -> Output
        ensures { result.used ≡ 0 }
    {
        Output {
            stream,
            bytes: [0; BUFFER],
            used: 0,
        }
    }

    // Prints all that wait.
    fn print(&mut self) -> io::Result<()>
        ensures { OnOk result (self.new.used ≡ 0) }
    {
        self.stream.write_all(&self.bytes[..self.used])?;
        self.used = 0;
        Ok(())
    }

    // Where little room is left, all that wait are printed.
    fn make_room(&mut self) -> io::Result<()>
        ensures { OnOk result (self.new.used ≤ ROOMY) }
    {
        if self.used > ROOMY {
            self.print()
        } else {
            Ok(())
        }
    }
}

// The records among the unread bytes, their lines behind those that wait. Room is left for more than one line, so that
// every turn goes on.
// Stays: `Sound`, for the reason that the crate `shard` has for its own.
fn list_part(cluster: &mut Cluster, number: u64, input: &mut Input, output: &mut Output) -> Progress
    requires sound { Sound cluster.old }
    requires room { output.old.used ≤ ROOMY }
    ensures { ListsAll cluster.old number (slice_range input.old.bytes input.old.at input.old.end)
        (cond input.old.ended 0 RECORD) (drop output.old.used output.old.bytes) result
        cluster.new (drop output.old.used output.new.bytes) }
{
    let room = &mut output.bytes[output.used..];
    let part = list_records(cluster, number, input.unread(), input.wanted(), room);
    output.used += part.used;
    input.listed(part.taken, part.ends);
    part
}

// The lines that wait, and the last one.
fn finish(cluster: &Cluster, output: &mut Output) -> io::Result<()>
    requires { Sound cluster.now }
{
    let mut line = [0u8; 64];
    let size = listing::total(cluster, &mut line);
    output.print()?;
    output.stream.write_all(&line[..size])
}

// Every record's line, and the last one. After a write that failed nothing more is listed.
fn list_all(cluster: &mut Cluster, input: &mut Input, output: &mut Output) -> io::Result<()>
    requires sound { Sound cluster.old }
    requires room { output.old.used ≤ ROOMY }
{
    let mut number = 1;
    input.fill();
    // Input has no length beforehand, and a loop is proved to end: so its turns are counted, with room for any input.
    for _ in 0..u64::MAX {
        if input.unread().is_empty() {
            break;
        }
        number = list_part(cluster, number, input, output).number;
        let printed = output.make_room();
        // Stays: the next bytes are read before a failed write is looked at, as the program always did.
        input.fill();
        printed?;
    }
    finish(cluster, output)
}

fn main(rt: HostRuntime) {
    let mut cluster = [[0u32; SHARD_WORDS]; 8];
    cluster::new(&mut cluster);
    let mut input = Input::new(rt.stdin());
    let mut output = Output::new(rt.stdout());
    // A write that failed ends the program without a word.
    let _ = list_all(&mut cluster, &mut input, &mut output);
}
