ghost use Rattle.examples.specs.Books.{BookExamples};

/// The examples of books hold; see specs/Books.antt.
pub fn book_examples()
    ensures { BookExamples }
{}
