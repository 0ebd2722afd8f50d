// What can be read from text, and kinds whose values stand in an order besides.
ghost use Rattle.std.specs.Prelude.{◌≡◌, ℕ, true, false, List, Some, Option};
ghost use Rattle.std.specs.declared.cmp.Ordering.TheVariants.{Equal};
ghost use Rattle.kinds.specs.Order.{Trichotomy, below_by};
ghost use Rattle.text.specs.Bytes.{lacks};

// What can be read from text; a missing text stands for something too.
// Not the library's `TryFrom<&[u8]>`, since the laws of a kind name what a text reads as.
pub trait FromText: Sized {
    // what a missing text stands for
    ghost missing: { Self };

    // what a text reads as, if it reads at all
    ghost reads: { List ℕ → Option Self };

    // Not `Default`'s, which tells a default by a relation: the laws of a kind name what is missing.
    fn missing() -> Self
        ensures { result ≡ missing };

    fn read(text: &[u8]) -> Option<Self>
        ensures { result ≡ reads text.now };
}

// A readable kind: values that stand in an order and can be read from text.
pub trait Readable: FromText + Ord + Copy {
    // the order tells any two values apart
    ghost apart: { (x y : Self) → Self.Ord.cmp x y ≡ Equal → x ≡ y };

    ghost lowest: { (x : Self) → below_by Self.Ord.cmp x Self.FromText.missing ≡ false };

    // so that a comma can part two values
    ghost commaless: { (text : List ℕ) (x : Self) → Self.FromText.reads text ≡ Some x → lacks 44 text ≡ true };
}

// Does nothing: its contract is the theorem that a kind's values stand in an order.
pub fn order_holds<K: Readable>()
    ensures either { (x y : K) → Trichotomy (below_by K.cmp) x y }
    ensures transitive { (x y z : K) → below_by K.cmp x y ≡ true → below_by K.cmp y z ≡ true → below_by K.cmp x z ≡ true }
{}
