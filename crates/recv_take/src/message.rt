// A ready message of several pieces, in the rows and the store where they stand.

#![tactic(auto)]

ghost use Rattle.std.specs.Prelude.{◌≡◌, ◌≤◌, length};
ghost use Rattle.base.specs.Limits.{max_frags};
ghost use Rattle.base.specs.Put.{put};
ghost use Rattle.rows.specs.Rows.{cells_in};
ghost use Rattle.recv_take.specs.Pieces.{piece_bytes, joined_to, Takeable};

use rows::Row;

#[derive(Clone, Copy, Debug, PartialEq, Eq)]
pub struct Message<'a> {
    pub rows: &'a [Row],
    pub store: &'a [u8],
    pub turn: u32,
    pub count: u32,
    ghost takeable: { Takeable turn (cells_in rows.now) store.now },
    ghost few: { count ≤ max_frags },
}

impl Message<'_> {
    // The bytes of its piece of this index; none where there is none. (`as usize`: u32 has no From to it.)
    #[tactic(auto, using(crate::proofs::Pieces::rows_piece))]
    fn piece(&self, index: u32) -> &[u8]
        ensures { result.now ≡ piece_bytes self.now.turn (cells_in self.now.rows.now) self.now.store.now index }
    {
        let Some(i) = row_scans::find_ready(self.rows, self.turn, index) else {
            return &[];
        };
        let start = i * base::CELL_BYTES;
        &self.store[start..start + self.rows[i].cell.length as usize]
    }

    // How many bytes it has.
    pub fn len(&self) -> usize
        ensures { result ≡ length (joined_to self.now.turn (cells_in self.now.rows.now) self.now.store.now self.now.count) }
    {
        (0..self.count).map(|i| self.piece(i).len()).sum()
    }

    // Its pieces' bodies, by index, to the front of the buffer. (A loop: of a buffer that a fold's closure changes a proof learns nothing.)
    #[tactic(auto, using(crate::proofs::Pieces::joins, base::proofs::Puts::run_long))]
    pub fn join(&self, joined: &mut [u8])
        ensures { joined.new ≡ put joined.old 0 (joined_to self.now.turn (cells_in self.now.rows.now)
            self.now.store.now self.now.count) }
    {
        let mut p: usize = 0;
        for i in 0..self.count {
            p = base::put_all(joined, p, self.piece(i));
        }
    }
}
