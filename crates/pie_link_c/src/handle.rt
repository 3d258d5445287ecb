//! A port and an excerpt as C holds them: the pointer of a box, null if closed.
ghost use Rattle.std.specs.Prelude.{◌≡◌, Option, Some, None, MatchOption};
ghost use Rattle.std_alloc.specs.Box.Ownership.{box_owns};
ghost use Rattle.pie_link_c.specs.{CallerView, ExcerptText};
ghost use Rattle.pie_link_c.specs.Owned.{maybe_port, maybe_text, owns_port_if, owns_text_if};

use crate::excerpt::ExcerptText;
use crate::port::Port;
use core::mem::replace;
use std::alloc::{Allocator, Global};
use std::marker::Model;
use std::ptr::null_mut;

// A box as its pointer.
pub(crate) struct BoxPointer<T, A: Allocator> {
    pub(crate) at: *mut T,
    pub(crate) alloc: A,
    pub(crate) ghost value: { T },
}

impl<T, A: Allocator> Model for BoxPointer<T, A> {
    ghost also_owns = { λ l. box_owns (A.dealloc_token l.alloc) T.row l.at l.value };
}

impl<T: Drop, A: Allocator> BoxPointer<T, A> {
    pub(crate) fn of(value: Box<T, A>) -> BoxPointer<T, A>
        ensures { result.value ≡ value.value }
    {
        let (at, alloc) = Box::into_raw_with_allocator(value);
        BoxPointer { at, alloc }
    }

    pub(crate) fn into_box(self) -> Box<T, A>
        ensures { result.value ≡ self.value }
    {
        let BoxPointer { at, alloc } = self;
        unsafe { Box::from_raw(alloc, at) }
    }
}

/// A port: a pointer that is null if the port is closed. Zeros are a closed port. C only moves it.
#[repr(C)]
pub struct PiePort {
    at: *mut u8,
    alloc: Global,
    /// The port's caller, if it is open.
    pub ghost port: { Option CallerView } by { maybe_port },
}

impl Model for PiePort {
    ghost also_owns = { λ p. owns_port_if p.alloc p.at p.port };
}

impl PiePort {
    /// Returns the pointer of an open port, otherwise `None`.
    pub(crate) fn into_pointer(self) -> Option<BoxPointer<Port, Global>>
        ensures { MatchOption result (self.port ≡ None) (λ l. self.port ≡ Some l.value) }
    {
        let PiePort { at, alloc } = self;
        if at.is_null() {
            None
        } else {
            let at = at as *mut Port;
            Some(BoxPointer { at, alloc })
        }
    }

    /// Returns the open port of a pointer.
    pub(crate) fn of_pointer(pointer: BoxPointer<Port, Global>) -> PiePort
        ensures { result.port ≡ Some pointer.value }
    {
        let BoxPointer { at, alloc } = pointer;
        let at = at as *mut u8;
        PiePort { at, alloc }
    }

    /// Returns a closed port.
    pub(crate) fn none(alloc: Global) -> PiePort
        ensures { result.port ≡ None }
    {
        PiePort {
            at: null_mut(),
            alloc,
        }
    }

    /// Takes the box out of an open port, which is closed then; otherwise returns `None`.
    #[inline(always)]
    pub(crate) fn take_box(&mut self, alloc: Global) -> Option<Box<Port>>
        ensures before { MatchOption result (self.old.port ≡ None) (λ b. self.old.port ≡ Some b.value) }
        ensures after { self.new.port ≡ None }
    {
        match replace(self, PiePort::none(alloc)).into_pointer() {
            None => None,
            Some(pointer) => Some(pointer.into_box()),
        }
    }

    /// Opens the port with `port_box`.
    #[inline(always)]
    pub(crate) fn put_box(&mut self, port_box: Box<Port>)
        ensures { self.new.port ≡ Some port_box.value }
    {
        if let Some(pointer) = replace(
            self,
            PiePort::of_pointer(BoxPointer::of(port_box)),
        ).into_pointer()
        {
            drop(pointer.into_box());
        }
    }
}

/// An excerpt: a pointer that is null if the excerpt is closed. Zeros are a closed excerpt. C only moves it.
#[repr(C)]
pub struct PieExcerpt {
    at: *mut u8,
    alloc: Global,
    /// The excerpt with its text, if it is open.
    pub ghost text: { Option ExcerptText } by { maybe_text },
}

impl Model for PieExcerpt {
    ghost also_owns = { λ p. owns_text_if p.alloc p.at p.text };
}

impl PieExcerpt {
    /// Returns the pointer of an open excerpt, otherwise `None`.
    pub(crate) fn into_pointer(self) -> Option<BoxPointer<ExcerptText, Global>>
        ensures { MatchOption result (self.text ≡ None) (λ l. self.text ≡ Some l.value) }
    {
        let PieExcerpt { at, alloc } = self;
        if at.is_null() {
            None
        } else {
            let at = at as *mut ExcerptText;
            Some(BoxPointer { at, alloc })
        }
    }

    /// Returns the open excerpt of a pointer.
    pub(crate) fn of_pointer(pointer: BoxPointer<ExcerptText, Global>) -> PieExcerpt
        ensures { result.text ≡ Some pointer.value }
    {
        let BoxPointer { at, alloc } = pointer;
        let at = at as *mut u8;
        PieExcerpt { at, alloc }
    }

    /// Returns a closed excerpt.
    pub(crate) fn none(alloc: Global) -> PieExcerpt
        ensures { result.text ≡ None }
    {
        PieExcerpt {
            at: null_mut(),
            alloc,
        }
    }

    /// Takes the box out of an open excerpt, which is closed then; otherwise returns `None`.
    pub(crate) fn take_box(&mut self, alloc: Global) -> Option<Box<ExcerptText>>
        ensures before { MatchOption result (self.old.text ≡ None) (λ b. self.old.text ≡ Some b.value) }
        ensures after { self.new.text ≡ None }
    {
        match replace(self, PieExcerpt::none(alloc)).into_pointer() {
            None => None,
            Some(pointer) => Some(pointer.into_box()),
        }
    }

    /// Opens the excerpt with `text_box`.
    pub(crate) fn put_box(&mut self, text_box: Box<ExcerptText>)
        ensures { self.new.text ≡ Some text_box.value }
    {
        if let Some(pointer) = replace(
            self,
            PieExcerpt::of_pointer(BoxPointer::of(text_box)),
        ).into_pointer()
        {
            drop(pointer.into_box());
        }
    }
}
