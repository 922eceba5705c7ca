// The words for the types that a case runs with.
use channel::{Courier, InOrder};
use digest::{Fnv, Sum};
use kinds::{Card, Register};

pub(crate) trait Named {
    const NAME: &'static str;
}

impl Named for Register {
    const NAME: &'static str = "register";
}

impl Named for Card {
    const NAME: &'static str = "card";
}

impl Named for Fnv {
    const NAME: &'static str = "fnv";
}

impl Named for Sum {
    const NAME: &'static str = "sum";
}

impl Named for InOrder {
    const NAME: &'static str = "in order";
}

impl Named for Courier {
    const NAME: &'static str = "courier";
}
