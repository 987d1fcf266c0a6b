//! The items of a cart.
ghost use Rattle.std.specs.Prelude.{◌≡◌, ◌<◌, [], ◌∷◌, ◌++◌, length};
ghost use Rattle.std.specs.Cmp.{partial_equiv_from_equiv};
ghost use Rattle.std.specs.Cmp.Lexicographic.{pointwise};
ghost use Rattle.std.proofs.lemmas.Cmp.{lists_equiv};
ghost use Rattle.yard_model.specs.contracts.state.CartItemEq.TheImpl.Laws as item_laws;
ghost use Rattle.yard_model.specs.Behaviour.{has_item, item_among, items_without, items_adjusted};

use crate::state::CartItem;
use std::marker::Model;

/// At most 16 items; seen as their list.
#[derive(Clone, Copy, Debug)]
pub struct Items {
    cells: [CartItem; 16],
    len: u8,
}

impl Model for Items {
    ghost use Rattle.std.specs.Prelude.{List, length, take};
    ghost use Rattle.yard_model.specs.declared.state.CartItem.{CartItem};
    ghost use Rattle.yard_model.specs.Items.{no_item};
    ghost use Rattle.yard_model.specs.Padded.{IsPadded, padded, padded_length, padded_cells};

    ghost Value = { List CartItem };

    ghost view = { λ n. take n.len n.cells };

    ghost invariant = { λ n. IsPadded 16 no_item n.cells n.len };

    ghost inverse = { λ v. record { cells = padded 16 no_item v; len = length v } };

    ghost inverse_ok = { λ n h i. record { cells = padded_cells h i; len = padded_length h i } };
}

const NO_ITEM: CartItem = CartItem {
    item: 0,
    quantity: 0,
};

impl Items {
    /// No items.
    pub fn empty() -> Items
        ensures { result ≡ [] }
    {
        Items {
            cells: [NO_ITEM; 16],
            len: 0,
        }
    }

    /// These items and one at the end.
    pub fn with(self, item: CartItem) -> Items
        requires { length self < 16 }
        ensures { result ≡ self ++ item ∷ [] }
    {
        let mut items = self;
        items.push(item);
        items
    }

    /// One item more at the end.
    fn push(&mut self, item: CartItem)
        requires { length self.old < 16 }
        ensures { self.new ≡ self.old ++ item ∷ [] }
    {
        self.cells[self.len as usize] = item;
        self.len += 1;
    }

    /// The items, as they stand.
    pub fn as_slice(&self) -> &[CartItem]
        ensures items { result.now ≡ self.now }
        ensures fits { length self.now < 17 }
    {
        &self.cells[..self.len as usize]
    }

    /// Whether the item of this number is among them.
    pub fn has(&self, number: u16) -> bool
        ensures { result ≡ has_item number self.now }
    {
        self.as_slice().iter().any(|x| x.item == number)
    }

    /// These items and `item`, before the first of a higher number.
    pub fn with_item(&self, item: CartItem) -> Items
        requires { length self.now < 16 }
        ensures { result ≡ item_among item self.now }
    {
        let mut items = Items::empty();
        let mut placed = false;
        for x in self.as_slice() {
            if !placed && item.item < x.item {
                items.push(item);
                placed = true;
            }
            items.push(*x);
        }
        if !placed {
            items.push(item);
        }
        items
    }

    /// These items without those of this number.
    pub fn without_item(&self, number: u16) -> Items
        ensures { result ≡ items_without number self.now }
    {
        let mut items = Items::empty();
        for x in self.as_slice() {
            if x.item != number {
                items.push(*x);
            }
        }
        items
    }

    /// These items, where those of `item`'s number have its quantity.
    pub fn with_quantity(&self, item: CartItem) -> Items
        ensures { result ≡ items_adjusted item self.now }
    {
        let mut items = Items::empty();
        for x in self.as_slice() {
            let adjusted = if x.item == item.item { item } else { *x };
            items.push(adjusted);
        }
        items
    }
}

impl PartialEq for Items {
    ghost eq = { pointwise ⟦<CartItem as PartialEq>⟧.eq };

    ghost laws = { partial_equiv_from_equiv (lists_equiv item_laws.laws-law) };

    fn eq(&self, other: &Items) -> bool {
        self.as_slice() == other.as_slice()
    }
}

impl Eq for Items {
    ghost laws = { lists_equiv item_laws.laws-law };
}
