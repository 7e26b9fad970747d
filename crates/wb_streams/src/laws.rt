//! Laws of the definitions, each on a function with nothing to run.
ghost use Rattle.std.specs.Prelude.{◌≡◌, ◌∷◌, ◌++◌, [], codes, map, None, Some};
ghost use Rattle.wb_streams.specs.Answers.{answer_bytes, phrase_of};
ghost use Rattle.wb_streams.specs.Fields.{bearer_token};

/// By examples: the phrase of each status that is answered (RFC 9110, section 15; RFC 6585, section
/// 5), the empty one of a code without a phrase, and the bytes of three answers (RFC 9112, section
/// 4; RFC 9110, section 11.6.1).
pub fn examples_of_answers()
    ensures phrases { map phrase_of
        (200 ∷ 400 ∷ 401 ∷ 403 ∷ 404 ∷ 405 ∷ 409 ∷ 411 ∷ 413 ∷ 422 ∷ 431 ∷ 501 ∷ 503 ∷ [])
        ≡ codes "OK" ∷ codes "Bad Request" ∷ codes "Unauthorized" ∷ codes "Forbidden" ∷ codes "Not Found"
        ∷ codes "Method Not Allowed" ∷ codes "Conflict" ∷ codes "Length Required"
        ∷ codes "Payload Too Large" ∷ codes "Unprocessable Entity"
        ∷ codes "Request Header Fields Too Large" ∷ codes "Not Implemented"
        ∷ codes "Service Unavailable" ∷ [] }
    ensures none { map phrase_of (299 ∷ 599 ∷ 999 ∷ []) ≡ [] ∷ [] ∷ [] ∷ [] }
    ensures answer { answer_bytes 404 (codes "{\"http\":\"NoRoute\"}")
        ≡ codes "HTTP/1.1 404 Not Found\r\nContent-Type: application/json\r\n"
        ++ codes "Content-Length: 18\r\nConnection: close\r\n\r\n{\"http\":\"NoRoute\"}" }
    ensures unauthorized { answer_bytes 401 (codes "{\"http\":\"NoKey\"}")
        ≡ codes "HTTP/1.1 401 Unauthorized\r\nContent-Type: application/json\r\n"
        ++ codes "Content-Length: 16\r\nConnection: close\r\nWWW-Authenticate: Bearer\r\n\r\n"
        ++ codes "{\"http\":\"NoKey\"}" }
    ensures without_phrase { answer_bytes 299 (codes "{}")
        ≡ codes "HTTP/1.1 299 \r\nContent-Type: application/json\r\n"
        ++ codes "Content-Length: 2\r\nConnection: close\r\n\r\n{}" }
{}

/// By examples: the token of a request, which stands in its only field for it, behind the scheme in
/// whatever letters and one space or more (RFC 6750, section 2.1; RFC 9110, section 11.1).
pub fn examples_of_tokens()
    ensures token { bearer_token ((codes "Authorization", codes "Bearer abc") ∷ []) ≡ Some (codes "abc") }
    ensures letters { bearer_token ((codes "authorization", codes "bEARER  a b") ∷ []) ≡ Some (codes "a b") }
    ensures spaces { bearer_token ((codes "authorization", codes "Bearer  ") ∷ []) ≡ Some [] }
    ensures no_field { bearer_token ((codes "Host", codes "Bearer abc") ∷ []) ≡ None }
    ensures two { bearer_token ((codes "Authorization", codes "Bearer abc")
        ∷ (codes "Host", codes "a") ∷ (codes "authorization", codes "Bearer abc") ∷ []) ≡ None }
    ensures no_space { bearer_token ((codes "authorization", codes "Bearerabc") ∷ []) ≡ None }
    ensures tab { bearer_token ((codes "authorization", codes "Bearer\tabc") ∷ []) ≡ None }
    ensures other { bearer_token ((codes "authorization", codes "Basic abc") ∷ []) ≡ None }
{}
