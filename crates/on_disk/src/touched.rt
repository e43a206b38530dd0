//! The names that a folder may have touched.
ghost use Rattle.std.specs.Prelude.{◌≡◌, false, true, IsTrue, OnOk, OnErr};
ghost use Rattle.std.specs.BTreeSet.{contains_text};
ghost use Rattle.outside.specs.Files.{NotTouched, created_touch, with_touch};

use std::alloc::{AllocError, Global};
use std::collections::BTreeSet;

/// The names that the folder was asked to create, whatever is there, and those that it was asked to
/// make where nothing is there.
#[derive(Drop)]
pub struct TouchedNames {
    created: BTreeSet<String>,
    made: BTreeSet<String>,
}

impl TouchedNames {
    ghost use Rattle.on_disk.specs.Names.{touched_in, is_touched};

    /// No names. It takes no memory.
    pub fn new(alloc: Global) -> Self
        ensures { touched_in result ≡ (λ _. NotTouched) }
    {
        TouchedNames {
            created: BTreeSet::new(alloc),
            made: BTreeSet::new(alloc),
        }
    }

    /// Whether the name was to be created, whatever is there.
    pub fn was_created(&self, name: &str) -> bool
        ensures created { result ≡ contains_text self.now.created name.now }
        ensures touched { IsTrue result → IsTrue (is_touched (touched_in self.now name.now)) }
    {
        self.created.contains(name)
    }

    /// Whether the name was to be made where nothing is there.
    pub fn was_made(&self, name: &str) -> bool
        ensures made { result ≡ contains_text self.now.made name.now }
        ensures touched { IsTrue result → IsTrue (is_touched (touched_in self.now name.now)) }
    {
        self.made.contains(name)
    }

    /// Adds a name that is to be created.
    ///
    /// # Errors
    /// If memory runs out. Then nothing changes.
    pub fn add_created(&mut self, alloc: Global, name: &str) -> Result<(), AllocError>
        ensures added { OnOk result (touched_in self.new
            ≡ with_touch (touched_in self.old) name.now (created_touch false)) }
        ensures kept { OnErr result (touched_in self.new ≡ touched_in self.old) }
    {
        if self.was_created(name) {
            return Ok(());
        }
        let key = String::from_str(alloc, name)?;
        self.created.insert(key)?;
        Ok(())
    }

    /// Adds a name that is to be made.
    ///
    /// # Errors
    /// If memory runs out. Then nothing changes.
    pub fn add_made(&mut self, alloc: Global, name: &str) -> Result<(), AllocError>
        ensures added { OnOk result (touched_in self.new
            ≡ with_touch (touched_in self.old) name.now (created_touch true)) }
        ensures kept { OnErr result (touched_in self.new ≡ touched_in self.old) }
    {
        if self.was_made(name) {
            return Ok(());
        }
        let key = String::from_str(alloc, name)?;
        self.made.insert(key)?;
        Ok(())
    }
}
