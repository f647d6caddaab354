// Noise operators: pairs of decoherence products with complex rates.
#![tactic(auto)]

ghost use Rattle.std.specs.Prelude.{◌≡◌, []};
ghost use Rattle.refusal.specs.Refusals.{said_done};
ghost use Rattle.items.specs.Lists.{at};
ghost use Rattle.term_sets.specs.Answers.{said_set, said_get};
ghost use Rattle.noise_sets.specs.Pairs.{filled, valid_set};
ghost use Rattle.noise_sets.specs.Answers.{get_pair, set_pair, add_pair};
ghost use Rattle.full_operators.specs.FullAnswers.{add_full_operators};
ghost use Rattle.noise_remapping.specs.RemapAnswers.{remap_set};
ghost use Rattle.noise.specs.Kinds.{told_noise};

use complex::Complex;
use items::{SITE_COUNT, Site};
use operators::DecoherenceOperator;
use products::DecoherenceProduct;
use refusal::Refusal;
use term_sets::{NoiseSet, Set};

#[derive(Clone, Copy)]
pub struct PauliLindbladNoiseOperator {
    pub set: NoiseSet,
}

impl PauliLindbladNoiseOperator {
    // The operator without terms.
    pub fn new() -> PauliLindbladNoiseOperator
        ensures { result.set ≡ filled [] }
    {
        PauliLindbladNoiseOperator { set: Set::new() }
    }

    // Whether number 0 lets the operator pass.
    pub fn is_valid(&self) -> bool
        ensures { result ≡ valid_set self.now.set }
    {
        self.set.is_valid(false)
    }

    // The coefficient of a pair, zero where there is none.
    pub fn get(
        &self,
        left: DecoherenceProduct,
        right: DecoherenceProduct,
    ) -> Result<Complex, Refusal>
        ensures { said_get result ≡ get_pair self.now.set (left.items, right.items) }
    {
        self.set.get(false, &(left.items, right.items))
    }

    // The coefficient of a pair set; what was there before is answered.
    pub fn set(
        &mut self,
        left: DecoherenceProduct,
        right: DecoherenceProduct,
        value: Complex,
    ) -> Result<Option<Complex>, Refusal>
        ensures { (said_set result, self.new.set) ≡ set_pair self.old.set (left.items, right.items) value }
    {
        term_writing::set(&mut self.set, false, (left.items, right.items), value)
    }

    // A coefficient added to that of a pair.
    pub fn add_operator_product(
        &mut self,
        left: DecoherenceProduct,
        right: DecoherenceProduct,
        value: Complex,
    ) -> Result<(), Refusal>
        ensures { (said_done result, self.new.set) ≡ add_pair self.old.set (left.items, right.items) value }
    {
        term_writing::add(&mut self.set, false, (left.items, right.items), value)
    }

    // The noise of two full operators added.
    pub fn add_noise_from_full_operators(
        &mut self,
        left: &DecoherenceOperator,
        right: &DecoherenceOperator,
        value: Complex,
    ) -> Result<(), Refusal>
        ensures { (said_done result, self.new.set) ≡ add_full_operators self.old.set left.now.terms right.now.terms value }
    {
        full_operators::add_full(&mut self.set, left, right, value)
    }

    // Every product moved to the targets of its sites.
    pub fn remap_qubits(
        &self,
        targets: [Site; SITE_COUNT],
    ) -> Result<PauliLindbladNoiseOperator, Refusal>
        ensures { told_noise self.now.set result ≡ remap_set (at targets) self.now.set }
    {
        let set = noise_remapping::remap_qubits(&self.set, &targets)?;
        Ok(PauliLindbladNoiseOperator { set })
    }
}
