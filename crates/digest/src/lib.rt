// Digests: functions from byte strings to 64-bit numbers, by which two replicas compare ranges of keys.
#![tactic(auto)]

ghost use Rattle.std.specs.Prelude.{◌≡◌, ℕ, ◌*◌, ◌^◌, ◌<◌, List, bit_xor};
ghost use Rattle.digest.specs.Folds.{fnv, sum, fnv_step, fnv_start};
ghost use Rattle.std.proofs.Common.{mod-lt, arith};
ghost use Rattle.std.proofs.lemmas.List.Folds.{fold_along};

// A digest means one function from byte strings to 64-bit numbers. Asking it alters nothing.
pub trait Digest {
    ghost function: { Self → List ℕ → ℕ };

    // The function's value at `bytes`.
    fn digest(&self, bytes: &[u8]) -> u64
        ensures { result ≡ function self.now bytes.now };

    ghost small: { (d : Self) (bs : List ℕ) → function d bs < 2 ^ 64 };
}

// FNV-1a of 64 bits.
#[derive(Clone, Copy)]
pub struct Fnv;

// The sum of the bytes modulo 65,536: easy to follow by hand, and with many collisions.
#[derive(Clone, Copy)]
pub struct Sum;

impl Digest for Fnv {
    ghost function = { λ _. fnv };

    ghost small = { λ d bs. fold_along fnv_step fnv_step (λ h _. h < 2 ^ 64) (λ h _ b _. mod-lt (bit_xor h b * 0x100000001b3) (omega arith)) fnv_start fnv_start bs (omega arith) };

    fn digest(&self, bytes: &[u8]) -> u64 {
        let mut hash: u64 = 0xcbf29ce484222325;
        for byte in bytes {
            hash = (hash ^ u64::from(*byte)).wrapping_mul(0x100000001b3);
        }
        hash
    }
}

impl Digest for Sum {
    ghost function = { λ _. sum };

    ghost small = { λ d bs. omega arith };

    fn digest(&self, bytes: &[u8]) -> u64 {
        let mut total: u64 = 0;
        for byte in bytes {
            total = (total + u64::from(*byte)) % 65536;
        }
        total
    }
}
