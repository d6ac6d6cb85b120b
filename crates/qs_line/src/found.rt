// What clap found for the settings of a word.

ghost use Rattle.std.specs.Prelude.{◌≡◌, map, option_map};
ghost use Rattle.clap.specs.Words.{all_of, first_of, found_of, rows_of};

use clap::ArgMatches;

/// All texts that clap has for a name: None where it does not know the name.
pub fn texts_at<'b, 'a>(found: &'b ArgMatches<'a>, name: &str) -> Option<&'b [&'a str]>
    ensures texts { option_map (λ texts. map (λ text. text.now) texts.now) result ≡ all_of name.now (rows_of (found_of found.now)) }
{
    found.get_strs(name)
}

/// The text that clap has for a name: what stands on the line, or the default.
pub fn text_at<'a>(found: &ArgMatches<'a>, name: &str) -> Option<&'a str>
    ensures text { option_map (λ text. text.now) result ≡ first_of name.now (rows_of (found_of found.now)) }
{
    found.get_str(name)
}
