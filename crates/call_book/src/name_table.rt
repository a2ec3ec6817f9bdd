//! Names by number, in an array.
ghost use Rattle.std.specs.Prelude.{◌≡◌, ◌+◌, ◌*◌, ◌<◌, ◌≤◌, Some, None, IfOk, OnErr};
ghost use Rattle.std.specs.FinMap.{empty, get, insert, remove};
ghost use Rattle.memory_requests.specs.Refused.{WasRefused};

use crate::leg_name::LegName;
use memory_requests::filled;
use std::alloc::{AllocError, Global};
use std::marker::Model;

// Names by number, in an array. Contracts see a map and the number of places.
#[derive(Drop)]
pub(crate) struct NameTable {
    places: Vec<Option<LegName>>,
}

impl Model for NameTable {
    ghost use Rattle.call_book.specs.Table.{Table, table_code};

    ghost Value = { Table };

    ghost coded = { table_code };

    ghost use Rattle.call_book.specs.TableInside.{table_inside};

    ghost view = { table_inside };
}

impl NameTable {
    // Returns `places` places without a name: at most one for each number of 32 peers, and one for 0.
    pub(crate) fn new(alloc: Global, places: usize) -> Result<NameTable, AllocError>
        requires few { places ≤ 32 * 512 + 1 }
        ensures empty { IfOk result (λ table. table ≡ record { names = empty; places = places }) }
        ensures no_memory { OnErr result WasRefused }
    {
        Ok(NameTable {
            places: filled(alloc, None, places)?,
        })
    }

    // Returns the name at a number.
    pub(crate) fn get(&self, number: u16) -> Option<LegName>
        ensures { result ≡ get self.now.names number }
    {
        let place = usize::from(number);
        if place < self.places.len() {
            self.places[place]
        } else {
            None
        }
    }

    pub(crate) fn put(&mut self, number: u16, name: LegName)
        requires { number < self.old.places }
        ensures { self.new ≡ record self.old { names = insert self.old.names number name } }
    {
        self.places[usize::from(number)] = Some(name);
    }

    pub(crate) fn clear(&mut self, number: u16)
        requires { number < self.old.places }
        ensures { self.new ≡ record self.old { names = remove self.old.names number } }
    {
        self.places[usize::from(number)] = None;
    }
}
