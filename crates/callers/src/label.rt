// A key of another crate: its `impl` writes what `Key` asks for and no more.
use refusal::Refusal;
use term_sets::key::Key;
use term_sets::masks::Masks;

// A key that is a number.
#[derive(Clone, Copy)]
struct Label {
    number: u64,
}

impl Key for Label {
    ghost use Rattle.callers.specs.Labels.{label_keys};
    ghost use Rattle.callers.specs.LabelLaws.{label_laws};

    ghost keys = { label_keys };

    ghost laws = { label_laws };

    fn is_same(&self, other: &Label) -> bool {
        self.number == other.number
    }

    fn blank() -> Label {
        Label { number: 0 }
    }

    fn check(&self) -> Result<(), Refusal> {
        Ok(())
    }

    fn number(&self) -> u64 {
        self.number
    }

    fn judged(&self) -> Option<Masks> {
        Some(Masks {
            left: self.number,
            right: 0,
        })
    }
}

#[cfg(test)]
mod tests {
    use super::*;
    use complex::Complex;
    use term_sets::Set;

    // 0 is blank, 3 is not; a set holds a coefficient under 3, and is malformed where 3 stands past its count.
    #[test]
    fn blank_labels(rt: HostRuntime) {
        let three = Label { number: 3 };
        assert!(rt; Label { number: 0 }.is_blank());
        assert!(rt; !three.is_blank());
        let mut set: Set<Label, Complex> = Set::new();
        assert!(rt; set.is_valid(true));
        let half = Complex { re: 0.5, im: 0.0 };
        assert!(rt; term_writing::set(&mut set, true, three, half).is_ok());
        assert!(rt; set.is_valid(true));
        set.count = 0;
        assert!(rt; !set.is_valid(true));
    }
}
