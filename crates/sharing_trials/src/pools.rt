// What no clause says: that calls succeed, that each value which a pass finds is the one that another has brought, and
// that hosts and passes may go to other threads.
ghost use Rattle.std.specs.Prelude.{◌≡◌, ◌*◌, ◌<◌, true, Some, None, IfOk, IfErr, IfSome};
ghost use Rattle.shared_pool.specs.Fits.{IsIdle};

use contract_tokens::Tells;
use shared_pool::{Host, Pinned, PoolPass, PoolRule};
use std::alloc::{AllocError, Global};
use std::sync::{Arc, Wait};
use std::test::Fail;
use std::thread::{Threads, join, yield_now};

// The item of a key is ten times the key.
struct Tenfold;

impl PoolRule for Tenfold {
    type Tag = ();

    type Key = u64;

    type Item = u64;

    ghost fits = { λ tag key item. item ≡ 10 * key };

    ghost any_tag = { tt };
}

// The tag says nothing.
struct Nothing;

impl Tells<()> for Nothing {
    ghost told = { tt };
}

const KEYS: u64 = 20;

const PINS: u64 = 10_000;

// Whether the pass is granted a frame for the key.
fn is_granted(rt: &impl Wait, pass: &mut PoolPass<Tenfold>, key: u64) -> bool
    requires idle { IsIdle pass.old.note }
    ensures same { pass.new.table ≡ pass.old.table }
    ensures granted { result ≡ true → (l : _) × (pass.new.note.loading ≡ Some l) × (l.key ≡ key) }
{
    matches!(pass.pin(rt, key), Pinned::Granted)
}

// Whether the pass is told that every frame is pinned.
fn is_busy(rt: &impl Wait, pass: &mut PoolPass<Tenfold>, key: u64) -> bool
    requires idle { IsIdle pass.old.note }
    ensures same { pass.new.table ≡ pass.old.table }
    ensures busy { result ≡ true → IsIdle pass.new.note }
{
    matches!(pass.pin(rt, key), Pinned::Busy)
}

// The value of the key, if it is there.
fn found(rt: &impl Wait, pass: &mut PoolPass<Tenfold>, key: u64) -> Option<u64>
    requires idle { IsIdle pass.old.note }
    ensures same { pass.new.table ≡ pass.old.table }
    ensures fits { IfSome result (λ value. value ≡ 10 * key) }
    ensures pins { IfSome result (λ value. (p : _) × (pass.new.note.pin ≡ Some p)) }
{
    match pass.pin(rt, key) {
        Pinned::Hit(value) => Some(*value),
        _ => None,
    }
}

// Brings the value of the key that the pass loads. Where there is no memory for it, the loading ends.
fn bring(
    rt: &impl Wait,
    alloc: Global,
    pass: &mut PoolPass<Tenfold>,
    key: u64,
) -> Result<(), AllocError>
    requires small { key < 20 }
    requires loads { (l : _) × (pass.old.note.loading ≡ Some l) × (l.key ≡ key) }
    ensures same { pass.new.table ≡ pass.old.table }
    ensures pins { IfOk result (λ _. (p : _) × (pass.new.note.pin ≡ Some p)) }
    ensures ended { IfErr result (λ _. IsIdle pass.new.note) }
{
    match Arc::new(alloc, 10 * key) {
        Ok(value) => {
            pass.settle(rt, Some(value));
            Ok(())
        }
        Err(error) => {
            pass.settle(rt, None);
            Err(error.into())
        }
    }
}

#[test]
fn two_passes_share_one_frame(rt: HostRuntime) -> Result<(), Fail> {
    let mut host = Host::<Tenfold>::start::<Nothing>(rt.alloc(), 2, 1)?;
    let mut zero = host.pass().expect(&rt, "no pass was handed out");
    let mut one = host.pass().expect(&rt, "one pass was handed out");
    assert!(rt; host.pass().is_none());

    assert!(rt; is_granted(&rt, &mut zero, 1));
    bring(&rt, rt.alloc(), &mut zero, 1)?;
    let value = found(&rt, &mut one, 1).expect(&rt, "the value is there");
    assert!(rt; value == 10);
    one.unpin(&rt);
    assert!(rt; is_busy(&rt, &mut one, 2));
    zero.unpin(&rt);
    assert!(rt; is_granted(&rt, &mut one, 2));
    one.settle(&rt, None);
    assert!(rt; is_granted(&rt, &mut zero, 1));
    zero.settle(&rt, None);

    host.rejoin(zero);
    host.rejoin(one);
    host.audit(&rt);
    Ok(())
}

// A pass that pins and loads nothing, which one thread has.
#[derive(Drop)]
struct Reader {
    pass: PoolPass<Tenfold>,
    ghost no_pin: { pass.note.pin ≡ None },
    ghost no_load: { pass.note.loading ≡ None },
}

impl Reader {
    // Pins the key, with its value brought where it isn't there, and unpins it. Whether the value is the key's.
    fn read(&mut self, rt: &impl Wait, alloc: Global, key: u64) -> Result<bool, AllocError>
        requires { key < 20 }
    {
        match self.pass.pin(rt, key) {
            Pinned::Hit(value) => {
                self.pass.unpin(rt);
                Ok(*value == 10 * key)
            }
            Pinned::Granted => {
                bring(rt, alloc, &mut self.pass, key)?;
                self.pass.unpin(rt);
                Ok(true)
            }
            Pinned::Busy => {
                yield_now();
                Ok(true)
            }
            Pinned::Memory => Err(AllocError),
        }
    }

    // Reads keys in an order of its own. Whether each value was its key's.
    fn read_all(&mut self, rt: &impl Wait, alloc: Global, seed: u64) -> Result<bool, AllocError> {
        let mut number = seed;
        for _ in 0..PINS {
            number = number
                .wrapping_mul(6_364_136_223_846_793_005)
                .wrapping_add(1);
            if !self.read(rt, alloc, (number >> 33) % KEYS)? {
                return Ok(false);
            }
        }
        Ok(true)
    }
}

fn new_reader(host: &mut Host<Tenfold>) -> Option<Reader> {
    let pass = host.pass()?;
    Some(Reader { pass })
}

fn one_reads(rt: &impl Wait, alloc: Global, mut reader: Reader, seed: u64) -> (Reader, bool) {
    let right = matches!(reader.read_all(rt, alloc, seed), Ok(true));
    (reader, right)
}

fn two_read<R: Threads + Wait + Sync>(
    rt: &R,
    alloc: Global,
    readers: (Reader, Reader),
    seed: u64,
) -> (Reader, Reader, bool) {
    let (one, other) = readers;
    let (one, other) = join(
        rt,
        move || one_reads(rt, alloc, one, seed),
        move || one_reads(rt, alloc, other, !seed),
    );
    (one.0, other.0, one.1 && other.1)
}

// Whether the pass gets a frame for the key, which nobody has had. The pass has it for good.
fn has_a_frame(rt: &impl Wait, mut reader: Reader, key: u64) -> bool {
    matches!(reader.pass.pin(rt, key), Pinned::Granted)
}

fn sends<T: Send>(_: &T) {}

#[test]
fn four_threads_find_each_value_at_its_key(rt: HostRuntime) -> Result<(), Fail> {
    let mut host = Host::<Tenfold>::start::<Nothing>(rt.alloc(), 4, 3)?;
    sends(&host);
    let zero = new_reader(&mut host).expect(&rt, "no pass was handed out");
    let one = new_reader(&mut host).expect(&rt, "one pass was handed out");
    let two = new_reader(&mut host).expect(&rt, "two passes were handed out");
    let three = new_reader(&mut host).expect(&rt, "three passes were handed out");
    let alloc = rt.alloc();
    let rt = &rt;
    let (some, others) = join(
        rt,
        move || two_read(rt, alloc, (zero, one), 1),
        move || two_read(rt, alloc, (two, three), 2),
    );
    assert!(rt; some.2 && others.2);

    // No pin is left: each of three new keys gets a frame, and a fourth none.
    assert!(rt; has_a_frame(rt, some.0, KEYS));
    assert!(rt; has_a_frame(rt, some.1, KEYS + 1));
    assert!(rt; has_a_frame(rt, others.0, KEYS + 2));
    assert!(rt; !has_a_frame(rt, others.1, KEYS + 3));
    Ok(())
}
