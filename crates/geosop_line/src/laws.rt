//! Laws of the command line.
ghost use Rattle.geosop_line.specs.CommandLine.{AConfigIsNoFault, ConfigIsOne, FirstFaultIsOne};

/// A law, with nothing to run: a command line has one configuration or one first fault at most, and not both.
pub fn law_a_line_has_one_answer()
    ensures config { ConfigIsOne }
    ensures fault { FirstFaultIsOne }
    ensures apart { AConfigIsNoFault }
{}
