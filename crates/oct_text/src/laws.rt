//! Laws of what the contracts speak of. Each is a function that does nothing and whose contract is the law.
ghost use Rattle.std.specs.Prelude.{◌≡◌, ℕ, ℤ, pos, neg_ℤ, ◌+◌, ◌^◌, ◌<◌, ◌≤◌, ◌≤ℤ◌, FitsSigned, List, [], ◌∷◌, ◌++◌, length, map, All, true, false, Some, None, Ok};
ghost use Rattle.std.specs.List.{list_all};
ghost use Rattle.std.specs.Fmt.{decimal, signed_decimal};
ghost use Rattle.std.specs.Int.{w64};
ghost use Rattle.oct_text.specs.Rest.{is_blank, Left, Token, Rest, next_token, is_word, ends_word, continued, MayCome};
ghost use Rattle.oct_text.specs.Taken.{token_taken, Takes, Waits, IsAtEnd};
ghost use Rattle.oct_text.specs.AllTokens.{IsLongestRun, tokens, texts_of};
ghost use Rattle.oct_text.specs.Numbers.{count_of, signed_of, coordinate_of, has_leading_zero};
ghost use Rattle.oct_text.specs.Printing.{list_spelling};

/// A printed count is read as that count.
pub fn printed_count_is_read()
    ensures { (n most : ℕ) → n ≤ most → n < 2 ^ 64 → count_of (decimal n) most ≡ Ok n }
{}

/// A printed number is read as that number, where it is in range.
pub fn printed_number_is_read()
    ensures { (z least most : ℤ) → FitsSigned w64 z → least ≤ℤ z → z ≤ℤ most →
        signed_of (signed_decimal z) least most ≡ Ok z }
{}

/// A printed coordinate is read as that coordinate.
pub fn printed_coordinate_is_read()
    ensures { (z : ℤ) → neg_ℤ (pos (2 ^ 30)) ≤ℤ z → z ≤ℤ pos (2 ^ 30) →
        coordinate_of (signed_decimal z) ≡ Ok z }
{}

/// A count that was spelled without leading zeros is printed as it was spelled.
pub fn read_count_is_printed()
    ensures { (text : List ℕ) (most n : ℕ) → most < 2 ^ 64 → count_of text most ≡ Ok n →
        has_leading_zero text ≡ false → decimal n ≡ text }
{}

/// Whatever the spelling was, what is printed of a number that was read is read as the same number.
pub fn read_numbers_are_read_again()
    ensures count { (text : List ℕ) (most n : ℕ) → most < 2 ^ 64 → count_of text most ≡ Ok n →
        count_of (decimal n) most ≡ Ok n }
    ensures signed { (text : List ℕ) (least most z : ℤ) → FitsSigned w64 least → FitsSigned w64 most →
        signed_of text least most ≡ Ok z → signed_of (signed_decimal z) least most ≡ Ok z }
    ensures coordinate { (text : List ℕ) (z : ℤ) → coordinate_of text ≡ Ok z →
        coordinate_of (signed_decimal z) ≡ Ok z }
{}

/// A printed number is a word.
pub fn printed_numbers_are_words()
    ensures count { (n : ℕ) → n < 2 ^ 64 → is_word (decimal n) ≡ true }
    ensures signed { (z : ℤ) → FitsSigned w64 z → is_word (signed_decimal z) ≡ true }
{}

/// A word in front of a blank, or of the end of the text, is the next token.
pub fn words_are_tokens()
    ensures { (place : ℕ) (word rest : List ℕ) → is_word word ≡ true → ends_word rest ≡ true →
        next_token (record { place = place; bytes = word ++ rest })
        ≡ Some (token_taken place word, record { place = place + length word; bytes = rest }) }
{}

/// The tokens of a printed list are its numbers, one by one, and then those of what comes behind it.
pub fn printed_list_is_tokens()
    ensures { (place : ℕ) (ns rest : List ℕ) → All (λ n. n < 2 ^ 32) ns → ends_word rest ≡ true →
        texts_of (tokens (record { place = place; bytes = list_spelling ns ++ rest }))
        ≡ map decimal ns
        ++ texts_of (tokens (record { place = place + length (list_spelling ns); bytes = rest })) }
{}

/// The next token is a longest run of bytes that are no blanks, with only blanks before it. There is none where only
/// blanks are left.
pub fn next_token_is_longest_run()
    ensures some { (left : Left) (t : Token × Left) → next_token left ≡ Some t →
        IsLongestRun left t.0 t.1 }
    ensures none { (left : Left) → next_token left ≡ None → list_all is_blank left.bytes ≡ true }
{}

/// All tokens are the next one and then those behind it.
pub fn tokens_come_one_by_one()
    ensures next { (left : Left) (t : Token × Left) → next_token left ≡ Some t →
        tokens left ≡ t.0 ∷ tokens t.1 }
    ensures none { (left : Left) → next_token left ≡ None → tokens left ≡ [] }
{}

/// However a text is cut into pieces, what `next` takes one after another are the tokens of the whole text.
pub fn tokens_come_through_pieces()
    ensures token { (old new : Rest) (token : Token) → Takes old token new →
        (more : List ℕ) → MayCome old more →
        tokens (continued old more) ≡ token ∷ tokens (continued new more) }
    ensures more { (old new : Rest) → Waits old new → (more : List ℕ) →
        tokens (continued new more) ≡ tokens (continued old more) }
    ensures end { (old new : Rest) (place : ℕ) → IsAtEnd old place new →
        tokens (continued old []) ≡ [] }
{}
