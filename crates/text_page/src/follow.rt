//! The script of a running line's page.

/// Follows a running line: requests the state of its centres once a second.
pub(crate) const FOLLOW: &str = "
let at='',seen='';
const live=tag('p',{class:'live'}),clock=()=>new Date().toTimeString().slice(0,8);
header.append(live);
const part=(used,most)=>{
  const p=Math.floor(used*100/most);
  return tag('span',{class:'part'},used+' ',tag('meter',{max:100,high:80,value:p,'aria-label':p+' %'}),` ${p} %`)};

function present(raw){
  const now={...raw},alerts=[];
  for(const name of ['trains','sections','sessions','centres','links','true_places','last'])
    now[name]=rows(raw[name]??[]);
  if(now.stopped)alerts.push('stop was said: no connection is taken any more');
  for(const it of now.centres){
    if(it.stuck)alerts.push(`journal of ${it.centre}: it can't be written. Only written events are shown`);
    if(it.entries>=8e5)alerts.push(`log of ${it.centre}: ${it.entries} of 1000000 entries`);
    if(it.connections>=it.seats)alerts.push(`${it.centre}: all ${it.seats} seats are taken`)}
  for(const it of now.links)if(it.sent>=52429)alerts.push(`link ${it.from} → ${it.to}: ${it.sent} of 65536 frames`);
  const words=`${now.events} events so far, seen at ${clock()}. Each centre is shown at a moment of its own.`;
  const count=centre=>now.trains.filter(it=>it.supervisor==centre).length+'';
  show(now,words,alerts,()=>[
    section('centres','Centres',table(['Centre','Port','Trains','Connections','Log used','Stamp'],
      now.centres.map(it=>cells({'data-k':it.centre},[chip(it.centre),it.port+'',count(it.centre),
        `${it.connections} of ${it.seats}`,part(it.entries,1e6),it.clock+''])))),
    section('links','Links',table(['From','To','Frames sent','On the way'],now.links.filter(it=>it.sent).map(it=>
      cells({'data-k':it.from+' '+it.to},[chip(it.from),chip(it.to),part(it.sent,65536),
        Math.max(0,it.sent-it.taken)+''])),'No frame was sent.'))])}

async function ask(address){
  const answer=await fetch(address,{cache:'no-store',signal:AbortSignal.timeout(5e3)});
  if(answer.status==304)return null;
  if(!answer.ok)throw answer.status;
  return answer.json()}

async function follow(){
  try{
    if(!line){
      const told=await ask('/line.json');
      for(const name of ['tracks','centres','sections'])told[name]=rows(told[name]);
      line=told}
    const now=await ask('/now?since='+at);
    if(now){at=now.version;present(now)}
    seen=clock();lost.textContent='';live.textContent='Last answer '+seen
  }catch(e){lost.textContent='No answer from the centres since '+(seen||'the start')+': what stands here is old'}
  document.body.classList.toggle('old',lost.textContent!='');
  setTimeout(follow,1e3)}

follow();
";
