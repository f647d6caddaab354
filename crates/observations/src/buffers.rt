// Lent buffers: what they hold before a call, and whether they hold it after one.
ghost use Rattle.std.specs.Prelude.{replicate, ◌≡◌, ◌==◌, ◌&&◌, min, length, take, vec_len, IfOk};
ghost use Rattle.observations.specs.Buffers.{each_from};

use std::alloc::{AllocError, Global};

// The places of a buffer: the most entries of a row, and some past them.
pub const PLACES: usize = 324;

// A number that buffers hold, and the one that stands in each place before a call.
pub trait Lent: Copy + PartialEq {
    ghost OLD: { Self };

    const OLD: Self;
}

impl Lent for u64 {
    ghost OLD = { 77 };

    const OLD: u64 = 77;
}

impl Lent for f64 {
    ghost use Rattle.std.specs.Float.{binary64};
    ghost use Rattle.std.specs.Float.Ieee.{of_bits};

    ghost OLD = { of_bits binary64 4598175219545276416 };

    const OLD: f64 = 0.25;
}

impl Lent for i64 {
    ghost use Rattle.std.specs.Prelude.{pos};

    ghost OLD = { pos 7 };

    const OLD: i64 = 7;
}

// Whether a buffer's places from n on are as before.
pub fn kept<T: Lent>(buffer: &[T], n: usize) -> bool
    ensures { result ≡ each_from (λ x. T.eq x T.OLD) n buffer.now }
{
    buffer.iter().skip(n).all(|x| *x == T::OLD)
}

// A buffer as it is before a call, on the heap: generic code need not show that it fits in memory, as it must of an array.
pub fn unwritten<T: Lent>(alloc: Global) -> Result<Vec<T>, AllocError>
    ensures length { IfOk result (λ v. vec_len v ≡ PLACES) }
    ensures items { IfOk result (λ v. v.items ≡ replicate PLACES T.OLD) }
{
    let mut places = Vec::with_capacity(alloc, PLACES)?;
    for _ in 0..PLACES {
        places.push(T::OLD)?;
    }
    Ok(places)
}

// How many places of each buffer a call is lent.
#[derive(Clone, Copy)]
pub struct Room {
    pub columns: usize,
    pub re: usize,
    pub im: usize,
}

impl Room {
    // As many in each.
    pub fn each(n: usize) -> Room
        ensures { result ≡ record { columns = n; re = n; im = n } }
    {
        Room {
            columns: n,
            re: n,
            im: n,
        }
    }
}

// The first places of a buffer, at most all of them.
pub fn first<T>(buffer: &mut [T], n: usize) -> &mut [T]
    ensures count { length result.now ≡ min n (length buffer.old) }
    ensures places { result.now ≡ take n buffer.old }
{
    let count = n.min(buffer.len());
    &mut buffer[..count]
}

// The three buffers of a row call: columns, real parts and imaginary parts.
#[derive(Drop)]
pub struct Buffers<T> {
    pub columns: [u64; PLACES],
    pub re: [T; PLACES],
    pub im: [T; PLACES],
}

impl<T: Lent> Buffers<T> {
    // As they are before a call.
    pub fn new() -> Buffers<T>
        ensures { result ≡ record { columns = replicate PLACES 77; re = replicate PLACES T.OLD; im = replicate PLACES T.OLD } }
    {
        Buffers {
            columns: [u64::OLD; PLACES],
            re: [T::OLD; PLACES],
            im: [T::OLD; PLACES],
        }
    }

    // The first places of each, at most all of them.
    pub fn lend(&mut self, room: Room) -> (&mut [u64], &mut [T], &mut [T])
        ensures counts { (length result.0.now ≡ min room.columns PLACES) × (length result.1.now ≡ min room.re PLACES) × (length result.2.now ≡ min room.im PLACES) }
        ensures places { (result.0.now ≡ take room.columns self.old.columns) × (result.1.now ≡ take room.re self.old.re) × (result.2.now ≡ take room.im self.old.im) }
    {
        let (columns, re, im) = (&mut self.columns, &mut self.re, &mut self.im);
        (
            first(columns, room.columns),
            first(re, room.re),
            first(im, room.im),
        )
    }

    // Whether the places from n on are as before.
    pub fn kept(&self, n: usize) -> bool
        ensures { result ≡ (each_from (λ x. x == 77) n self.now.columns && each_from (λ x. T.eq x T.OLD) n self.now.re && each_from (λ x. T.eq x T.OLD) n self.now.im) }
    {
        kept(&self.columns, n) && kept(&self.re, n) && kept(&self.im, n)
    }
}
