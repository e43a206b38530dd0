//! A folder, two sinks and words: what a command is run over.
ghost use Rattle.std.specs.Prelude.{◌≡◌, false, is_some, option_copied, OnOk, OnErr};
ghost use Rattle.session.specs.Shown.{empty_session, shown, without_name, with_bytes, with_word};
ghost use Rattle.session.specs.Names.{IsNameAt};
ghost use Rattle.session.specs.Runs.{RunsWords};

use crate::folder::GrowingFolder;
use crate::sink::GrowingSink;
use mp3_cli::run;
use std::alloc::{AllocError, Global};

/// A folder of files in memory, the words of a command, and the text and the line that the last command sent.
#[derive(Drop)]
pub struct Session {
    alloc: Global,
    folder: GrowingFolder,
    text: GrowingSink,
    line: GrowingSink,
    words: Vec<String>,
}

impl Session {
    /// A session without files, words, text and line. It takes no memory.
    pub fn new(alloc: Global) -> Self
        ensures { shown result ≡ empty_session }
    {
        Session {
            alloc,
            folder: GrowingFolder::new(alloc),
            text: GrowingSink::new(alloc),
            line: GrowingSink::new(alloc),
            words: Vec::new(alloc),
        }
    }

    /// Makes the name's file a copy of these bytes, whether or not it is there.
    ///
    /// # Errors
    /// If memory is refused. Then nothing has changed.
    pub fn put(&mut self, name: &str, bytes: &[u8]) -> Result<(), AllocError>
        ensures put { OnOk result (shown self.new ≡ with_bytes name.now bytes.now
            (shown self.old)) }
        ensures kept { OnErr result (shown self.new ≡ shown self.old) }
    {
        self.folder.put(name, bytes)
    }

    /// Takes the name away, and returns whether it was there.
    pub fn remove(&mut self, name: &str) -> bool
        ensures there { result ≡ is_some ((shown self.old).files name.now) }
        ensures files { shown self.new ≡ without_name name.now (shown self.old) }
        ensures kept { result ≡ false → shown self.new ≡ shown self.old }
    {
        self.folder.remove(name)
    }

    /// Adds a word behind those that are there.
    ///
    /// # Errors
    /// If memory is refused. Then nothing has changed.
    pub fn word(&mut self, word: &str) -> Result<(), AllocError>
        ensures added { OnOk result (shown self.new ≡ with_word word.now (shown self.old)) }
        ensures kept { OnErr result (shown self.new ≡ shown self.old) }
    {
        let word = String::from_str(self.alloc, word)?;
        match self.words.push(word) {
            Ok(()) => Ok(()),
            Err(_) => Err(AllocError),
        }
    }

    /// Does what the words ask for over the folder, as the program does over a folder of real files, and forgets the words. What
    /// the last command sent is forgotten first. Returns the program's status, 0 to 4.
    pub fn run(&mut self) -> u8
        ensures { RunsWords (shown self.old) (shown self.new) result }
    {
        self.text.clear();
        self.line.clear();
        let status = run(
            self.alloc,
            self.words.as_slice(),
            &mut self.folder,
            &mut self.text,
            &mut self.line,
        );
        self.words.clear();
        status
    }

    /// The bytes of the file, or `None` if the name isn't there.
    pub fn file(&self, name: &str) -> Option<&[u8]>
        ensures { option_copied result ≡ (shown self.now).files name.now }
    {
        self.folder.get(name)
    }

    /// The name with this number, counted from 0 in the order of their bytes, or `None` if there are no more.
    pub fn name(&self, number: usize) -> Option<&str>
        ensures { IsNameAt (shown self.now).files number (option_copied result) }
    {
        self.folder.name(number)
    }

    /// What the last command sent to standard output.
    pub fn text(&self) -> &[u8]
        ensures { result.now ≡ (shown self.now).text.bytes }
    {
        self.text.bytes()
    }

    /// What the last command sent to standard error.
    pub fn line(&self) -> &[u8]
        ensures { result.now ≡ (shown self.now).line.bytes }
    {
        self.line.bytes()
    }
}
