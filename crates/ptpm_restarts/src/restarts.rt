//! What restarts change. Each law is the contract of a function that does nothing, and speaks only of the definitions.

ghost use Rattle.std.specs.Prelude.{◌≡◌, ◌<◌, ℕ, List};
ghost use Rattle.std.specs.List.{Contains};
ghost use Rattle.ptpm_manager.specs.declared.report.Report.{Report};
ghost use Rattle.ptpm_network.specs.GivingUp.{IsServedInOrder};
ghost use Rattle.ptpm_network.specs.Headline.{Headline};
ghost use Rattle.ptpm_network.specs.Machine.{state_after};
ghost use Rattle.ptpm_network.specs.Network.{Network};
ghost use Rattle.ptpm_restarts.specs.ActsAsIfNever.{ActsAsIfNever, IsPromisedActing};
ghost use Rattle.ptpm_restarts.specs.AsIfNever.{IsAsIfNever, IsPromisedRestarting, never_crashed};
ghost use Rattle.ptpm_restarts.specs.Batching.{BatchIncident, HasRoom, IsPromisedBatching, StartConsistent, after_batch_incidents, all_incidents, initial_batching, shown_network};
ghost use Rattle.ptpm_restarts.specs.Incidents.{Incident, after_incidents};
ghost use Rattle.ptpm_restarts.specs.Restarting.{RestartingNetwork, initial_restarting, running};

/// Restarts do nothing but lose messages. The clocks of a network save before they answer, and its sessions before they ask. Any
/// of them may crash at any moment, and as often as it likes; it goes on from what it saved. If no frame is delivered late:
/// - the network is as one that never crashed, which went through some of the same events, in the same order. Each clock has the same
///   data sets and entries, each session the same request under way and the same reports. Every frame that was sent here was sent
///   there, to the same end and with the same octets;
/// - so the headline holds of the network, among the frames of that one;
/// - what is reported there was reported here, once or more. All that was ever reported here, also before a crash, is worth a
///   report there. Its request was carried out exactly once, and it has the one answer of that moment. So an answer that is
///   reported again is the same.
///
/// The premises are those of the headline, and that storage gives back what was saved last. When anyone saves or crashes is free.
pub fn restarts_lose_messages_alone()
    ensures as_if_never { (N : Network) (is : List Incident) →
        IsPromisedRestarting N is →
        IsAsIfNever N is (after_incidents N (initial_restarting N) is) }
    ensures headline { (N : Network) (is : List Incident) (k : RestartingNetwork)
        (a : IsAsIfNever N is k) →
        Headline N (state_after N a.events)
        (record (running k) { frames = (never_crashed N a.events).frames }) }
    ensures told_again { (N : Network) (is : List Incident) (k : RestartingNetwork) (s : ℕ) (x y : Report) →
        IsAsIfNever N is k → s < N.sessions →
        Contains (k.told s) x → Contains (k.told s) y → x.index ≡ y.index → x ≡ y }
{}

/// So it is where sessions also give requests up, and hosts observe their clocks. Any clock or session may crash between these, and
/// right after. If no frame is delivered late:
/// - the network is as one that never crashed, which went through some of the same acts, in the same order, none of them refused. The
///   data sets, entries, requests under way, reports and frames are as above;
/// - each session has an account of acts there. So `managers_that_give_up_are_served` of ptpm_network says what its manager may rely on.
///   Each of its requests is carried out once at most, in their order. None is decided anew once a later one is reported;
/// - what is reported there was reported here, once or more. All that was ever reported here is the reply that is kept in the account,
///   so an answer that is reported again is the same;
/// - each request that was begun there was begun here. Whatever was reported here is to the request that was under way here, and there that
///   one has the report's index.
///
/// To give up a request is a change. If that is not saved before a crash, the request is under way again. Nothing is saved for an
/// observation.
pub fn restarts_among_acts()
    ensures as_if_never { (N : Network) (is : List Incident) →
        IsPromisedActing N is →
        ActsAsIfNever N is (after_incidents N (initial_restarting N) is) }
    ensures served { (N : Network) (is : List Incident) (k : RestartingNetwork) (s : ℕ)
        (a : ActsAsIfNever N is k) →
        s < N.sessions → IsServedInOrder N s a.network (a.account s) }
    ensures told_again { (N : Network) (is : List Incident) (k : RestartingNetwork) (s : ℕ) (x y : Report) →
        ActsAsIfNever N is k → s < N.sessions →
        Contains (k.told s) x → Contains (k.told s) y → x.index ≡ y.index → x ≡ y }
{}

/// So it is where clocks go on while they are being saved. What a manager asks of a clock waits there for a save, and comes in late. All
/// else is answered at once, as if nothing waited. An image may be saved at any moment, and a clock may crash at any moment. The
/// network is then one whose clocks save before they answer, after other incidents: what waited comes in at its save. So
/// `restarts_among_acts` holds for it, if no frame is late when it comes in there.
///
/// The other premises are those of `restarts_among_acts`, room for frames, and that each clock starts with data sets such as a clock has.
/// A host may not confirm an image that a restart would not find.
pub fn batches_among_acts()
    ensures incidents { (N : Network) (is : List BatchIncident) →
        StartConsistent N → HasRoom N (initial_batching N) is →
        shown_network N (after_batch_incidents N (initial_batching N) is)
        ≡ after_incidents N (initial_restarting N) (all_incidents N (initial_batching N) is) }
    ensures as_if_never { (N : Network) (is : List BatchIncident) →
        IsPromisedBatching N is →
        ActsAsIfNever N (all_incidents N (initial_batching N) is)
        (shown_network N (after_batch_incidents N (initial_batching N) is)) }
{}
