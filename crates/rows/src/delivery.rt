// A row laid into three lent buffers.
ghost use Rattle.refusal.specs.Refusals.{gives};
ghost use Rattle.rows.specs.Buffers.{said_delivery};
ghost use Rattle.rows.specs.Calls.{RowCallIn};
ghost use Rattle.rows.specs.Entries.{entries_of};

use crate::Row;
use crate::number::{Number, Parts};
use refusal::Refusal;

impl<V: Number> Row<V> {
    // The columns and the parts of the numbers, where every buffer has places for them; how many there are.
    pub fn deliver<P: Copy>(
        &self,
        out_columns: &mut [u64],
        out_re: &mut [P],
        out_im: &mut [P],
    ) -> Result<usize, Refusal>
    where
        V: Parts<P>,
        ensures { RowCallIn V.parts (gives (entries_of self.now)) (said_delivery result) out_columns.old out_columns.new out_re.old out_re.new out_im.old out_im.new }
    {
        let entries = self.entries.as_slice();
        let n = entries.len();
        if out_columns.len() < n || out_re.len() < n || out_im.len() < n {
            return Err(Refusal::BufferTooShort);
        }
        for (i, e) in entries.iter().enumerate() {
            out_columns[i] = e.column;
            out_re[i] = e.value.re();
            out_im[i] = e.value.im();
        }
        Ok(n)
    }
}
