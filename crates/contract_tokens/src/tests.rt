// What no clause says: a token may go to any thread, and each call is there. What a token says is shown by the clauses.
ghost use Rattle.std.specs.Prelude.{◌≡◌, [], ◌∷◌, Some};

use crate::{Kept, Log, Tells, Told};
use std::test::Fail;

// A value that a caller states.
struct Seven;

impl Tells<u64> for Seven {
    ghost told = { 7 };
}

fn told() -> Told<u64>
    ensures { result.value ≡ 7 }
{
    Told::of::<Seven>()
}

fn kept(value: u64) -> Kept<u64>
    ensures { result ≡ Some value }
{
    let old = Kept::<u64>::nothing();
    drop(old);
    Kept::of(&Some(value)).again()
}

fn two(one: u64, other: u64) -> Log<u64>
    ensures { result ≡ one ∷ other ∷ [] }
{
    let first = Log::after(&Log::empty(), &one);
    Log::after(&first.again(), &other)
}

fn sends<T: Send>(_: &T) {}

fn shares<T: Sync>(_: &T) {}

#[test]
fn tokens_cross_threads(rt: HostRuntime) -> Result<(), Fail> {
    let token = told();
    sends(&token);
    shares(&token);
    let value = kept(3);
    sends(&value);
    shares(&value);
    let list = two(1, 2);
    sends(&list);
    shares(&list);
    assert!(rt;
        size_of::<Told<u64>>() == 0 && size_of::<Kept<u64>>() == 0 && size_of::<Log<u64>>() == 0
    );
    Ok(())
}
