// Laws about the definitions. Each is the contract of a function that does nothing.
ghost use Rattle.std.specs.Prelude.{ℕ, List};
ghost use Rattle.http_front.specs.Reading.{ReadsExactly};
ghost use Rattle.http_front.specs.Http.{IsAlwaysFilled, CutsOneWay};
ghost use Rattle.http_front.specs.Taking.{EndsSessions};

use wire_io::Service;

/// A law: a head is read exactly if it is one of RFC 9112, as httparse takes it, with at most 64
/// fields.
pub fn heads_are_read_exactly()
    ensures { ReadsExactly }
{}

/// A law: whatever a server does for a request, each text can be continued to a whole request, and
/// can be cut into requests in exactly one way.
pub fn each_text_has_one_cut<W, F: Service<W>>()
    ensures filled { IsAlwaysFilled F.State F.Call F.Answer }
    ensures one_cut { CutsOneWay F.State F.Call F.Answer }
{}

/// A law: if a session ends while a request is taken, it ends as a session of the server does.
pub fn each_end_is_of_a_session<W, F: Service<W>>()
    ensures { EndsSessions F.State F.Call F.Answer }
{}
