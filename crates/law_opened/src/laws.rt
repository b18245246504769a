//! The endpoints that a text opens (USB 2.0, 5.5, 5.8, 8.6 and 9.6.6).
ghost use Rattle.law_opened.specs.Declared.{TextsDeclareStreams};
ghost use Rattle.law_opened.specs.Opened.{TextsOpenOnce, TextsOpenFit};

/// Lines that open one name open one endpoint, and it has the way of its kind.
pub fn each_name_is_of_one_endpoint()
    ensures once { TextsOpenOnce }
    ensures fits { TextsOpenFit }
{}

/// A bulk or interrupt endpoint that a text opens has its sender or its taker on the bus where its device is at high speed; no other has
/// one.
pub fn texts_declare_streams()
    ensures { TextsDeclareStreams }
{}
