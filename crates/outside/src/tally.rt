//! The counts of a folder.
ghost use Rattle.std.specs.Prelude.{◌≡◌, ◌<◌, ◌⊎◌, if◌then◌else◌, ◌==◌, ◌&&◌, nat_lt};
ghost use Rattle.outside.specs.Counts.{no_counts, with_miss, with_end, with_read_fault, with_write_fault, OnlyReads, OnlyWrites, NothingFailed, EndedAt};

use crate::occurrences::Occurrences;
use std::marker::Model;

/// How often a file was missing, a read met an end, and a call failed, and which file it last
/// happened to. A count that has reached `u64::MAX` stays there, and of a name longer than 4,096
/// bytes the first 4,096 are kept.
#[derive(Drop)]
pub struct Tally {
    misses: Occurrences,
    ends: Occurrences,
    // The offset of the last read that met an end.
    end: u64,
    read_faults: Occurrences,
    write_faults: Occurrences,
}

impl Model for Tally {
    ghost use Rattle.std.specs.Prelude.{[]};
    ghost use Rattle.outside.specs.Counts.{Counts, ended_reads};

    ghost Value = { Counts };

    ghost view = { λ t. record {
      misses = t.misses;
      ends = ended_reads t.ends t.end;
      read_faults = t.read_faults;
      write_faults = t.write_faults;
      lent = [];
    } };
}

impl Tally {
    pub fn new() -> Self
        ensures { result ≡ no_counts }
    {
        Tally {
            misses: Occurrences::none(),
            ends: Occurrences::none(),
            end: 0,
            read_faults: Occurrences::none(),
            write_faults: Occurrences::none(),
        }
    }

    /// A file of this name is missing.
    pub fn count_miss(&mut self, name: &str)
        ensures counted { self.new ≡ with_miss name.now self.old }
        ensures later { OnlyReads self.old self.new }
    {
        self.misses.add(name);
    }

    /// A read of this file at this offset gave no byte.
    pub fn count_end(&mut self, name: &str, at: u64)
        ensures counted { self.new ≡ with_end name.now at self.old }
        ensures later { OnlyReads self.old self.new }
    {
        self.ends.add(name);
        self.end = at;
    }

    /// A read of this file at this offset returned `count` bytes, where there was room for `room`:
    /// it met an end if it returned none though there was room.
    #[inline]
    pub fn count_read(&mut self, name: &str, at: u64, count: usize, room: usize)
        ensures counted { self.new ≡ (if count == 0 && nat_lt 0 room then with_end name.now at
            self.old else self.old) }
        ensures ended { count ≡ 0 → 0 < room → EndedAt name.now at self.old.ends self.new.ends }
        ensures got { (0 < count) ⊎ (room ≡ 0) → self.new ≡ self.old }
        ensures done { NothingFailed self.old self.new }
        ensures later { OnlyReads self.old self.new }
    {
        if count == 0 && room > 0 {
            self.count_end(name, at);
        }
    }

    /// A call to find or read this file failed.
    pub fn count_read_fault(&mut self, name: &str)
        ensures counted { self.new ≡ with_read_fault name.now self.old }
        ensures later { OnlyReads self.old self.new }
    {
        self.read_faults.add(name);
    }

    /// A call to create this file or write to it failed.
    pub fn count_write_fault(&mut self, name: &str)
        ensures counted { self.new ≡ with_write_fault name.now self.old }
        ensures later { OnlyWrites self.old self.new }
    {
        self.write_faults.add(name);
    }
}
