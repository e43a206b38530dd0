// What C holds: a pointer to a session, or null where there is none.
ghost use Rattle.mp3edit_c.specs.Handle.{inner_coded, shows};
ghost use Rattle.session.specs.Shown.{shown};
ghost use Rattle.session.specs.declared.held.Session.{Session};
ghost use Rattle.std.specs.Prelude.{IfOk, None, OnErr, Option, option_map, Some, ◌≡◌};

use crate::loose::Loose;
use session::Session;
use std::alloc::{AllocError, Global};
use std::marker::Model;
use std::mem;
use std::ptr::null_mut;

// No `Drop`: with it a session that is overwritten would be forgotten without a word.
#[repr(C)]
pub struct Handle {
    at: *mut u8,
    pub ghost inner: { Option Session } by { inner_coded },
}

impl Model for Handle {
    ghost use Rattle.mp3edit_c.specs.Handle.{handle_owns};

    ghost also_owns = { λ h. handle_owns h.at h.inner };
}

impl Handle {
    fn empty() -> Handle
        ensures { result.inner ≡ None }
    {
        Handle { at: null_mut() }
    }

    fn of_loose(inner: Loose<Session, Global>) -> Handle
        ensures { result.inner ≡ Some inner.value }
    {
        let Loose { at, alloc: _ } = inner;
        Handle { at: at as *mut u8 }
    }

    fn into_loose(self, alloc: Global) -> Option<Loose<Session, Global>>
        ensures { option_map (λ l. l.value) result ≡ self.inner }
    {
        let Handle { at } = self;
        if at.is_null() {
            return None;
        }
        Some(Loose {
            at: at as *mut Session,
            alloc,
        })
    }

    /// Takes out the session, if there is one.
    pub(crate) fn take(&mut self, alloc: Global) -> Option<Box<Session>>
        ensures session { option_map (λ b. b.value) result ≡ self.old.inner }
        ensures empty { self.new.inner ≡ None }
    {
        match mem::replace(self, Handle::empty()).into_loose(alloc) {
            Some(loose) => Some(loose.into_box()),
            None => None,
        }
    }

    /// Takes out the session, or makes one where there is none.
    ///
    /// # Errors
    /// If there is none, and memory for one is refused.
    pub(crate) fn open(&mut self, alloc: Global) -> Result<Box<Session>, AllocError>
        ensures shown { IfOk result (λ b. shown b.value ≡ shows self.old.inner) }
        ensures same { (s : _) → self.old.inner ≡ Some s → IfOk result (λ b. b.value ≡ s) }
        ensures refused { OnErr result (self.old.inner ≡ None) }
        ensures empty { self.new.inner ≡ None }
    {
        match self.take(alloc) {
            Some(session) => Ok(session),
            None => Ok(Box::new(alloc, Session::new(alloc))?),
        }
    }

    /// Puts back what was taken out.
    pub(crate) fn give(&mut self, alloc: Global, session: Box<Session>)
        requires { self.old.inner ≡ None }
        ensures { self.new.inner ≡ Some session.value }
    {
        match mem::replace(self, Handle::of_loose(Loose::of(session))).into_loose(alloc) {
            Some(_) => unreachable!(),
            None => (),
        }
    }
}

// A handle may go to another thread, since what it holds is its own.
unsafe impl Send for Handle {}

// That this is proved is asked for only where a bound needs it.
fn handle_crosses(handle: &Handle) {
    crosses(handle);
}

fn crosses<T: Send>(_value: &T) {}
