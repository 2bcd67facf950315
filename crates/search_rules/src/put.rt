// The rows of the search in lent memory are written by number: placed symbols and noted names.
ghost use Rattle.search_rules.specs.SearchRows.{placed_layout, noted_layout};

use crate::{NOTED_WIDTH, Noted, PLACED_WIDTH, Placed};
use lent::rows;
use lent::rows::Row;

impl Row for Placed {
    ghost layout = { placed_layout };

    fn width() -> usize {
        PLACED_WIDTH
    }

    fn put(self, m: &mut [u64], i: usize) {
        let cells = [
            self.position as u64,
            self.name.at as u64,
            self.name.len as u64,
            u64::from(self.valid),
            self.segment.0 as u64,
            self.base as u64,
            self.link as u64,
            self.alike as u64,
        ];
        rows::put(m, i, &cells);
    }
}

impl Row for Noted {
    ghost layout = { noted_layout };

    fn width() -> usize {
        NOTED_WIDTH
    }

    fn put(self, m: &mut [u64], i: usize) {
        let cells = [
            self.target,
            self.name.at as u64,
            self.name.len as u64,
            u64::from(self.valid),
            self.link as u64,
            self.alike as u64,
        ];
        rows::put(m, i, &cells);
    }
}
