//! Laws of the definitions, each the contract of a function that does nothing.

ghost use Rattle.ipld_tree.specs.Laws.{SpellingsAreUnique, SpelledKeysKeepTheirOrder};
ghost use Rattle.ipld_tree.specs.Laws.{EqualityIsOfTrees, CidEqualityIsOfBytes};
ghost use Rattle.ipld_tree.specs.CidFault.{CidFaultsAreUnique};
ghost use Rattle.ipld_tree.specs.Spelled.{SpelledIsTheSpelling};

/// Unique readability: no two trees share a spelling, and no spelling begins another.
pub fn spelling_unique()
    ensures { SpellingsAreUnique }
{}

/// Key order: spelled entries with different keys compare, by their bytes, as their keys do.
pub fn key_order()
    ensures { SpelledKeysKeepTheirOrder }
{}

/// Two values are equal exactly if their trees are.
pub fn equality()
    ensures { EqualityIsOfTrees }
{}

/// `spelled` gives the spelling of each spellable tree, and `None` for any other.
pub fn spelled_is_the_spelling()
    ensures { SpelledIsTheSpelling }
{}

/// Two CIDs are equal exactly if their binary forms are.
pub fn cid_equality()
    ensures { CidEqualityIsOfBytes }
{}

/// Bytes have at most one fault, and a CID has no fault. Bytes that `Cid::try_from` refuses have
/// one.
pub fn cid_faults()
    ensures { CidFaultsAreUnique }
{}
