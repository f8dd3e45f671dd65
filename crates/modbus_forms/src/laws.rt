//! What holds of all requests and replies.
ghost use Rattle.std.specs.Prelude.{◌≡◌, ◌++◌, ℕ, List, IsTrue, None};
ghost use Rattle.modbus_forms.specs.declared.request.Request.{Request};
ghost use Rattle.modbus_forms.specs.declared.reply.Reply.{Reply};
ghost use Rattle.modbus_forms.specs.Requests.{request_text, request_fits, request_fault};
ghost use Rattle.modbus_forms.specs.Replies.{reply_text, reply_fits, reply_fault};
ghost use Rattle.modbus_forms.specs.Widths.{FitsRequest, FitsReply};

/// No request's spelling is a prefix of another's. So requests that stand one behind the other are told apart, and no
/// two have one spelling.
pub fn one_request_spelling()
    ensures { (f g : Request) (xs ys : List ℕ) → FitsRequest f → FitsRequest g
        → IsTrue (request_fits f) → IsTrue (request_fits g)
        → request_text f ++ xs ≡ request_text g ++ ys → (f ≡ g) × (xs ≡ ys) }
{}

/// Nor is a reply's of another reply's.
pub fn one_reply_spelling()
    ensures { (f g : Reply) (xs ys : List ℕ) → FitsReply f → FitsReply g
        → IsTrue (reply_fits f) → IsTrue (reply_fits g)
        → reply_text f ++ xs ≡ reply_text g ++ ys → (f ≡ g) × (xs ≡ ys) }
{}

/// A request's spelling has no fault.
pub fn faultless_request()
    ensures { (r : Request) → IsTrue (request_fits r) → request_fault (request_text r) ≡ None }
{}

/// Nor has a reply's.
pub fn faultless_reply()
    ensures { (r : Reply) → IsTrue (reply_fits r) → reply_fault (reply_text r) ≡ None }
{}
