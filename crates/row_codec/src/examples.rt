// What the examples of the page on formats read as, and what they are written as.
ghost use Rattle.row_codec.specs.OnTexts.{KnownRecords, KnownRows, KnownTexts};

/// The worked texts of the page on formats, each as its records, its rows, or the text of rows.
pub fn examples_law()
    ensures records { KnownRecords }
    ensures rows { KnownRows }
    ensures texts { KnownTexts }
{}
