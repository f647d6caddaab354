// Open systems: a Hamiltonian with noise, grouped.
#![tactic(auto)]

ghost use Rattle.std.specs.Prelude.{◌≡◌};
ghost use Rattle.open_system.specs.Grouping.{empty_system, together, group_answer, told_system};

use hamiltonians::PauliHamiltonian;
use noise::PauliLindbladNoiseOperator;
use refusal::Refusal;

#[derive(Clone, Copy)]
pub struct PauliLindbladOpenSystem {
    pub system: PauliHamiltonian,
    pub noise: PauliLindbladNoiseOperator,
}

impl PauliLindbladOpenSystem {
    // The system without terms.
    pub fn new() -> PauliLindbladOpenSystem
        ensures { result ≡ empty_system }
    {
        PauliLindbladOpenSystem {
            system: PauliHamiltonian::new(),
            noise: PauliLindbladNoiseOperator::new(),
        }
    }

    // A Hamiltonian and a noise operator as one system, both judged by 0.
    #[tactic(auto, unfolding(crate::specs::Grouping::group_answer))]
    pub fn group(
        system: PauliHamiltonian,
        noise: PauliLindbladNoiseOperator,
    ) -> Result<PauliLindbladOpenSystem, Refusal>
        ensures { told_system (together system noise) result ≡ group_answer system noise }
    {
        if !system.is_valid() || !noise.is_valid() {
            return Err(Refusal::Malformed);
        }
        Ok(PauliLindbladOpenSystem { system, noise })
    }
}
