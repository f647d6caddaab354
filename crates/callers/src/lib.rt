// Tests of public names that only a crate from elsewhere would use.
#![tactic(auto)]

mod label;

#[cfg(test)]
mod lending {
    use observations::buffers::{Lent, first, kept, unwritten};
    use std::alloc::{AllocError, Global};
    use std::test::Fail;

    // Buffers of any length are lent, not only those of the test programs.
    #[test]
    fn first_places(rt: HostRuntime) {
        let mut buffer = [1u64, 2, 3];
        assert_eq!(rt; first(&mut buffer, 0).len(), 0);
        assert!(rt; &*first(&mut buffer, 2) == [1u64, 2].as_slice());
        assert!(rt; &*first(&mut buffer, 4) == [1u64, 2, 3].as_slice());
    }

    // Code over any numbers need not show that an array of them fits: it lends first places of a buffer, and sees that the others are as before.
    fn lends<T: Lent>(alloc: Global, n: usize) -> Result<bool, AllocError> {
        let mut parts: Vec<T> = unwritten(alloc)?;
        let count = first(&mut parts, n).len();
        Ok(kept(&parts, count))
    }

    // There is memory for a buffer on the heap, and it is as before a call.
    #[test]
    fn unwritten_buffers(rt: HostRuntime) -> Result<(), Fail> {
        let parts: Vec<f64> = unwritten(rt.alloc())?;
        assert_eq!(rt; parts.len(), 324);
        assert!(rt; parts.iter().all(|x| *x == 0.25));
        assert!(rt; kept(&parts, 0));
        assert!(rt; lends::<i64>(rt.alloc(), 5)?);
        Ok(())
    }
}
