// The laws of the field and of stripes as theorems: each function's contract is one, and its answer says nothing more.
// It touches nothing.
ghost use Rattle.field.specs.Field.{SumsAreAGroup, ProductsAreAField, PowersOfTwo};
ghost use Rattle.field.specs.Word.{EightElements};
ghost use Rattle.field.specs.Column.{NoughtsChangeNothing, NothingBehind, OnlyOne};
ghost use Rattle.field.specs.Stripe.{Blank, Grows, Unique, Example};

// Sums are commutative and associative, with 0, and each element is its own negative.
pub fn sums_are_a_group() -> u8
    ensures { SumsAreAGroup }
{
    0
}

// Products are commutative and associative, with 1 and inverses, and distribute over sums.
pub fn products_are_a_field() -> u8
    ensures { ProductsAreAField }
{
    0
}

// Powers of 2 add their exponents, 2^255 is 1, and 1 + 2^d is a known power for each difference of two data columns.
pub fn powers_of_two() -> u8
    ensures { PowersOfTwo }
{
    0
}

// What is done to a word is done to each of its eight elements.
pub fn words_are_eight_elements() -> u8
    ensures { EightElements }
{
    0
}

// A column of noughts changes neither P nor Q.
pub fn noughts_change_nothing() -> u8
    ensures { NoughtsChangeNothing }
{
    0
}

// P and Q don't depend on what lies behind the last column.
pub fn nothing_behind() -> u8
    ensures { NothingBehind }
{
    0
}

// Some columns have one P and one Q.
pub fn only_one() -> u8
    ensures { OnlyOne }
{
    0
}

// A stripe of noughts is a codeword.
pub fn blank_is_a_codeword() -> u8
    ensures { Blank }
{
    0
}

// A codeword of k columns is one of k + 1 columns, with noughts behind it.
pub fn codewords_grow() -> u8
    ensures { Grows }
{
    0
}

// Two codewords that agree in all columns but two are the same.
pub fn codewords_are_unique() -> u8
    ensures { Unique }
{
    0
}

// The example: of six columns, whose data are filled with 7, 8, 9 and 10, data columns 1 and 2 are had again from the other four.
pub fn example() -> u8
    ensures { Example }
{
    0
}
