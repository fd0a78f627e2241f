//! The law of a worked run over real files.
ghost use Rattle.cw_laws.specs.Greeting.{GreetingIsWoven};

/// The law of the greeting: where the system gives these answers (a web of a greeting is opened, its bytes come, and it
/// ends), what `weave_files` promises of all files that would have given them says all that it has printed and written,
/// byte by byte, and its status. It does nothing: what it ensures is for proofs.
pub fn greeting_law()
    ensures { GreetingIsWoven }
{}
