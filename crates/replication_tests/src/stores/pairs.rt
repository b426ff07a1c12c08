//! A file and its spare in memory: an honest one, and proved to be.
ghost use Rattle.std.specs.Prelude.{option_map};

use super::*;
use sb_checkpoint::{FileStore, FileWithSpare};
use std::alloc::Global;
use std::io;

#[derive(Drop)]
struct Pair {
    alloc: Global,
    content: Option<Vec<u8>>,
    spare: Option<Vec<u8>>,
}

impl FileWithSpare for Pair {
    ghost content = { λ pair. option_map (λ bytes. bytes.items) pair.content };

    ghost spare = { λ pair. option_map (λ bytes. bytes.items) pair.spare };

    ghost IsHonest = { λ pair. Unit {0} };

    fn write_spare(&mut self, bytes: &[u8]) -> io::Result<()> {
        let mut spare = Vec::new(self.alloc);
        spare.extend_from_slice(bytes)?;
        self.spare = Some(spare);
        Ok(())
    }

    fn place_spare(&mut self) -> io::Result<()> {
        match self.spare.take() {
            Some(spare) => {
                self.content = Some(spare);
                Ok(())
            }
            None => Err(io::Error::from(io::ErrorKind::NotFound)),
        }
    }

    fn remove_spare(&mut self) -> io::Result<()> {
        match self.spare.take() {
            Some(_) => Ok(()),
            None => Err(io::Error::from(io::ErrorKind::NotFound)),
        }
    }

    fn read(&mut self) -> Result<Option<Vec<u8>>, StoreFault> {
        let Some(content) = &self.content else {
            return Ok(None);
        };
        Ok(Some(content.clone()?))
    }
}

#[test]
fn a_store_over_an_honest_file(rt: HostRuntime) {
    let pair = Pair {
        alloc: rt.alloc(),
        content: None,
        spare: None,
    };
    let mut store = Box::new(rt.alloc(), FileStore::new(pair)).expect(&rt, "memory for a store");
    assert!(rt; store.probe() == Ok(()));
    holds_nothing(&rt, &mut *store);
    puts(&rt, &mut *store, b"some", Ok(()), 0);
    has_content(&rt, &mut *store, b"some");
}
