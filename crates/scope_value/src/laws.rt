// What the orders and the bags of this crate are worth, each as the contract of a function with nothing to do.
ghost use Rattle.scope_value.specs.Laws.{IsValueOrderTotal, IsValueOrderExact, IsKeyOrderTotal, IsKeyOrderExact, IsOneBag, IsSortedBag, IsSortedUnique};

/// The order of values is a total order, and values that compare equal are one value.
pub fn value_order_law()
    ensures total { IsValueOrderTotal }
    ensures exact { IsValueOrderExact }
{}

/// The order of rows by keys is a total order, and where `rest` holds, rows that compare equal are one row.
pub fn key_order_law()
    ensures total { IsKeyOrderTotal }
    ensures exact { IsKeyOrderExact }
{}

/// Two lists of rows are one bag, each row standing equally often in both, exactly where one is a permutation of the other.
pub fn bag_law()
    ensures { IsOneBag }
{}

/// A bag has one list in the order of any keys with `rest`: the sorted list is of the bag and in the order, and no other list is.
pub fn sorted_bag_law()
    ensures sorted { IsSortedBag }
    ensures unique { IsSortedUnique }
{}
