//! A store of which all is known, so that a read is proved to give what it holds.

ghost use Rattle.std.specs.Prelude.{◌≡◌, ◌∷◌, [], IfOk, Some, false};
ghost use Rattle.ti_tool.specs.Streams.{AreContents, KnownFiles, file_name, lookup};

use super::ending::{End, is_end};
use std::alloc::{Allocator, Global};
use std::io;
use std::test::Fail;
use ti_fixtures::entries::SMALL;
use ti_fixtures::{Sink, Source};
use ti_tool::{Files, Store, Terminals, one_file, read_contents, run_at};

/// A store in which each name is of a file with these bytes.
#[derive(Clone, Copy)]
struct SameFiles<'a> {
    bytes: &'a [u8],
}

impl Store for SameFiles<'_> {
    ghost known = { λ store. record {
      found = λ word. Some (lookup false (file_name word false ∷ []));
      contents = λ name. Some store.bytes.now;
    } };

    fn find<A: Allocator + Copy>(&self, alloc: A, name: &str) -> io::Result<Files<A>> {
        Ok(one_file(alloc, name, None)?)
    }

    fn read<A: Allocator>(&self, _name: &str, contents: &mut Vec<u8, A>) -> io::Result<()> {
        let mut source = self.bytes;
        read_contents(&mut source, contents)
    }
}

/// The contents of a file.
fn contents_of<A: Allocator>(alloc: A, store: &SameFiles<'_>, name: &str) -> io::Result<Vec<u8, A>>
    ensures { IfOk result (λ v. AreContents (Some store.now.bytes.now) v.items) }
{
    let mut contents = Vec::new(alloc);
    store.read(name, &mut contents)?;
    Ok(contents)
}

/// How a run over the store ends.
fn end_over_store(alloc: Global, store: &SameFiles<'_>, words: &[&str]) -> End {
    let (mut output, mut errors) = (Sink::new(alloc), Sink::new(alloc));
    let mut input = Source::new(b"", 1);
    let at = Terminals::NONE;
    let status = run_at(
        store,
        alloc,
        alloc,
        at,
        words,
        &mut input,
        &mut output,
        &mut errors,
    );
    End {
        status,
        output: output.taken,
        errors: errors.taken,
        reads: input.calls,
    }
}

#[test]
fn a_known_file_is_read(rt: HostRuntime) -> Result<(), Fail> {
    let store = SameFiles { bytes: SMALL };
    let contents = contents_of(rt.alloc(), &store, "any")?;
    assert_that!(rt; contents.as_slice() == SMALL);
    let end = end_over_store(rt.alloc(), &store, &["ti", "get", "cols", "--entry", "any"]);
    assert_that!(rt; is_end(&end, 0, b"80\n", b""));
    Ok(())
}
