// A kind of table: its header, and how a record of it is judged. The two tables of this crate are its kinds.
ghost use Rattle.std.specs.Prelude.{◌≡◌, ℕ, ◌≤◌};
ghost use Rattle.tables.specs.Fields.{part_bytes};
ghost use Rattle.rows.specs.Verdict.{Rules, Lawful};

use plant::refusal::Reason;

pub trait Kind {
    type Row: Copy + Default;

    // How few rows there may be, and how many.
    const LEAST: usize;

    const MOST: usize;

    ghost LEAST: { ℕ };

    ghost MOST: { ℕ };

    ghost rules: { Self → Rules Self.Row };

    // Each kind's own, as is its row: a table of titles and readers would be no plainer than a pattern of fields.
    fn is_header(&self, fields: &[&[u8]]) -> bool
        ensures { result ≡ (rules self.now).heads (part_bytes fields.now) };

    // The row of the k-th record, counted from the header's 0, or the first rule that it breaks.
    fn row(&self, k: usize, fields: &[&[u8]]) -> Result<Self::Row, Reason>
        requires { k ≤ MOST }
        ensures { result ≡ (rules self.now).judge k (part_bytes fields.now) };

    ghost lawful: { (s : Self) → Lawful (rules s) LEAST MOST };

    // The same for any record: past the most there is no row.
    final fn judge(&self, k: usize, fields: &[&[u8]]) -> Result<Self::Row, Reason>
        ensures { result ≡ (rules self.now).judge k (part_bytes fields.now) }
    {
        if k > Self::MOST {
            return Err(Reason::RowCount);
        }
        self.row(k, fields)
    }
}
