// Chains of additions to a set, in its places. Keys are found by their numbers, which stand beside them, and then by themselves.
ghost use Rattle.std.specs.Prelude.{◌≡◌, []};
ghost use Rattle.refusal.specs.Refusals.{said_by, said_done};
ghost use Rattle.term_sets.specs.Sets.{held_by, StandsAt};
ghost use Rattle.term_writing.specs.Numbered.{Numbered};
ghost use Rattle.term_writing.specs.WritingAnswers.{add_step, finish};

use crate::{has_room, put, sum_at};
use complex::coefficient::Coefficient;
use refusal::Refusal;
use term_sets::key::Key;
use term_sets::{Set, places};
use terms::MOST_TERMS;

#[derive(Drop)]
pub struct Adding<K: Key, N: Coefficient> {
    pub set: Set<K, N>,
    pub numbers: [u64; MOST_TERMS],
    ghost numbered: { Numbered K.keys N.numbers set numbers },
}

impl<K: Key, N: Coefficient> Adding<K, N> {
    // Nothing added yet.
    pub fn new() -> Self
        ensures { held_by result.set ≡ [] }
    {
        Adding {
            set: Set::new(),
            numbers: [0; MOST_TERMS],
        }
    }

    // The terms of a set, to be added to.
    pub fn to(s: &Set<K, N>) -> Self
        ensures { held_by result.set ≡ held_by s.now }
    {
        let held = &places(&s.terms)[..s.count.min(MOST_TERMS)];
        let mut set = Set::new();
        let mut numbers = [0u64; MOST_TERMS];
        for (i, t) in held.iter().enumerate() {
            set.terms[i] = *t;
            numbers[i] = t.key.number();
        }
        set.count = held.len();
        Adding { set, numbers }
    }

    // The place of the term with a key that has this number.
    fn find(&self, key: &K, number: u64) -> Option<usize>
        requires { number ≡ K.keys.number_of key.now }
        ensures { StandsAt K.keys N.numbers key.now (held_by self.now.set) result }
    {
        let numbers = &self.numbers[..self.set.count];
        let at = numbers.iter().position(|&x| x == number)?;
        if self.set.terms[at].key.is_same(key) {
            return Some(at);
        }
        self.set.find(key)
    }

    // A coefficient added to the one under a key. A step that finds no room changes nothing.
    pub fn add(&mut self, key: K, value: N) -> Result<(), Refusal>
        ensures { (said_done result, held_by self.new.set) ≡ add_step K.keys N.numbers key value (held_by self.old.set) }
    {
        let number = key.number();
        let at = self.find(&key, number);
        let sum = sum_at(&self.set, at, value);
        if !has_room(&self.set, at, sum) {
            return Err(Refusal::SetFull);
        }
        let count = self.set.count;
        match (at, sum.is_zero()) {
            (Some(i), true) => self.numbers.copy_within(i + 1..count, i),
            (Some(_), false) => {}
            (None, true) => {}
            (None, false) => self.numbers[count] = number,
        }
        put(&mut self.set, at, key, sum);
        Ok(())
    }

    // What is held at the end, judged by 5.
    pub fn finished(self) -> Result<Set<K, N>, Refusal>
        ensures { said_by (λ s. s) result ≡ finish K.keys N.numbers (held_by self.set) }
    {
        let set = self.set;
        if set.held().iter().all(|t| t.coefficient.in_range()) {
            return Ok(set);
        }
        Err(Refusal::CoefficientOutOfRange)
    }
}
