//! Worked command lines. The functions do nothing: their contracts are the laws.

ghost use Rattle.gw_tool_line.specs.Calls.{CallsAreRefused, CallsAreTaken};

/// What each command asks for, by words that are written out: the parser takes them, whatever the program's name is.
pub fn calls()
    ensures { CallsAreTaken }
{}

/// Words that are written out and ask for nothing, since their options don't go together.
pub fn mistakes()
    ensures { CallsAreRefused }
{}
