ghost use Rattle.std.specs.Prelude.{◌≡◌};
ghost use Rattle.std.specs.Cmp.Lexicographic.{pointwise, lists_per, lists_equiv};

use rb_delayed::Element;
use std::marker::Model;

/// A sequence of values. Contracts see a list.
#[derive(Debug, Drop)]
pub struct Sequence<T> {
    values: Vec<T>,
}

/// A sequence of ids.
pub type Ids = Sequence<u64>;

/// A sequence of elements.
pub type Items = Sequence<Element>;

impl<T> Model for Sequence<T> {
    ghost use Rattle.std.specs.Prelude.{List};
    ghost use Rattle.std.specs.Coded.{coded_list};

    ghost Value = { List T };

    ghost coded = { coded_list T.code };

    ghost view = { λ sequence. sequence.values.items };
}

impl<T> Sequence<T> {
    /// The values of a vector. It takes no memory.
    pub fn new(values: Vec<T>) -> Self
        ensures { result ≡ values.items }
    {
        Sequence { values }
    }

    /// The values, in their order.
    pub fn as_slice(&self) -> &[T]
        ensures { result.now ≡ self.now }
    {
        &self.values
    }

    /// The vector that it was made from. It takes no memory.
    pub fn into_vec(self) -> Vec<T>
        ensures { result.items ≡ self }
    {
        self.values
    }
}

impl<T: PartialEq> PartialEq for Sequence<T> {
    ghost eq = { pointwise T.eq };

    ghost laws = { lists_per T.laws };

    fn eq(&self, other: &Self) -> bool {
        self.as_slice() == other.as_slice()
    }
}

impl<T: Eq> Eq for Sequence<T> {
    ghost laws = { lists_equiv T.Eq.laws };
}
